// Phases 0 to 4 of the collector, each on the tables that it touches, of a pool that is known to be sound. All of it is inner (decision 4 of
// docs/DECISIONS.md).
//     opens, snoops, takes, clears, scans    the steps; each has the name of its definition in rules/specs/Collect.antt
//     made_by, clear_maker, held_by          what phases 2 and 4 do to the records; copy: a log's entries to their place in the history
// Each function is lent only the tables that it touches, each as a parameter of its own: a rule of this project (decision 26), so that its contract says of no other table
// anything.
#![tactic(auto)]

ghost use Rattle.std.specs.Prelude.{◌≡◌, ◌+◌, ◌*◌, ◌≤◌, length};
ghost use Rattle.rules.specs.Sound.{Each};
ghost use Rattle.tables.specs.Bits.{word_count, with_standing};
ghost use Rattle.tables.specs.Event.{InPhase, Steps};
ghost use Rattle.gather.specs.Lent.{snoops_on, takes_on, clears_on, scans_on};
ghost use Rattle.gather.specs.Raw.{unmade, held_in};

use advance::{onward, stepped};
use rules::{Answered, Collector, LinkNumber, RecordNumber, Sizes};
use tables::flag::set_flag;
use tables::mark::{mark_standing, set_mark};
use tables::place::{log_place, record_place, register_place};

// "Phase 0: open the cycle: phase 1, position 0."
pub fn opens(s: Sizes, c: Collector) -> Answered
    requires { InPhase 0 s (λ t. t) c }
    ensures { Steps 0 s (λ t. t) c result (λ t. t) }
{
    stepped(onward(c, 1, 0))
}

// "Phase 1: snoop flag on for the worker at the position."
pub fn snoops(s: Sizes, snoops: &mut [u16], lengths: &[u16], c: Collector) -> Answered
    requires { InPhase 1 s (snoops_on snoops.old lengths.now) c }
    ensures { Steps 1 s (snoops_on snoops.old lengths.now) c result (snoops_on snoops.new lengths.now) }
{
    set_flag(snoops, usize::from(c.position), true);
    let entries = lengths[usize::from(s.w)];
    stepped(onward(c, s.w, entries))
}

// ".. with maker 0", without a branch: what is multiplied by 0 is gone, and what is multiplied by 1 stays.
fn clear_maker(makers: &mut [u16], w: u16)
    requires { w ≤ 7 }
    ensures { makers.new ≡ unmade w makers.old }
{
    for maker in makers.iter_mut() {
        *maker *= u16::from(*maker != w + 1);
    }
}

// "every record of which it is maker becomes a candidate with maker 0"
fn made_by(candidates: &mut [u64], makers: &mut [u16], w: u16)
    requires { (length candidates.old ≡ word_count (length makers.old)) × (length makers.old ≤ 1024) × (w ≤ 7) }
    ensures { (makers.new ≡ unmade w makers.old) × (candidates.new ≡ with_standing (w + 1) makers.old candidates.old) }
{
    mark_standing(candidates, makers, w + 1);
    clear_maker(makers, w);
}

// One list, copied into another of its length. A loop: `copy_from_slice` on lists that are lent becomes the C library's `memmove`, and the library for C calls nothing but
// `memcpy` and `memset` (docs/LIBRARY.md).
fn copy(to: &mut [u16], from: &[u16])
    requires { length to.old ≡ length from.now }
    ensures { to.new ≡ from.now }
{
    for (i, n) in from.iter().enumerate() {
        to[i] = *n;
    }
}

// "Phase 2: that worker's log is added at the end of the history and emptied; every record of which it is maker becomes a candidate with maker 0."
pub fn takes(
    s: Sizes,
    candidates: &mut [u64],
    makers: &mut [u16],
    logs: &mut [u16],
    history: &mut [u16],
    lengths: &mut [u16],
    c: Collector,
) -> Answered
    requires { InPhase 2 s (takes_on candidates.old makers.old logs.old history.old lengths.old) c }
    ensures { Steps 2 s (takes_on candidates.old makers.old logs.old history.old lengths.old) c result
        (takes_on candidates.new makers.new logs.new history.new lengths.new) }
{
    let w = c.position;
    let worker = usize::from(w);
    let last = usize::from(s.w);
    let n = lengths[worker];
    let m = lengths[last];
    let from = log_place(s, w);
    let log = &mut logs[from..from + usize::from(n) * 2];
    let end = usize::from(m) * 2;
    copy(&mut history[end..end + log.len()], log);
    log.fill(0);
    lengths[worker] = 0;
    lengths[last] = m + n;
    made_by(candidates, makers, w);
    stepped(onward(c, s.w, m + n))
}

// "Phase 3: changed mark off for the link of the history entry at the position."
pub fn clears(
    s: Sizes,
    changed: &mut [u64],
    history: &[u16],
    lengths: &[u16],
    c: Collector,
) -> Answered
    requires { InPhase 3 s (clears_on changed.old history.now lengths.now) c }
    ensures { Steps 3 s (clears_on changed.old history.now lengths.now) c result (clears_on changed.new history.now lengths.now) }
{
    let entries = lengths[usize::from(s.w)];
    let [link, _] = history.as_chunks::<2>().0[usize::from(c.position)];
    let l = LinkNumber(link);
    set_mark(changed, usize::from(l.0), false);
    stepped(onward(c, entries, entries))
}

// "every record in its registers is held"
fn held_by(held: &mut [u64], registers: &[u16])
    requires { Each (λ a. a ≤ length held.old * 64) registers.now }
    ensures { held.new ≡ held_in registers.now held.old }
{
    for &a in registers {
        if a != 0 {
            set_mark(held, record_place(RecordNumber(a)), true);
        }
    }
}

// "Phase 4: that worker's snoop flag off; every record in its registers is held."
pub fn scans(
    s: Sizes,
    held: &mut [u64],
    registers: &[u16],
    snoops: &mut [u16],
    lengths: &[u16],
    c: Collector,
) -> Answered
    requires { InPhase 4 s (scans_on held.old registers.now snoops.old lengths.now) c }
    ensures { Steps 4 s (scans_on held.old registers.now snoops.old lengths.now) c result
        (scans_on held.new registers.now snoops.new lengths.now) }
{
    let w = c.position;
    set_flag(snoops, usize::from(w), false);
    let from = register_place(s, w, 0);
    held_by(held, &registers[from..from + usize::from(s.r)]);
    let entries = lengths[usize::from(s.w)];
    stepped(onward(c, s.w, entries))
}
