// Phase 6 of the collector, on the tables that it touches, of a pool that is known to be sound. All of it is inner (decision 4 of docs/DECISIONS.md).
//     reclaims                    the step
//     reclaimed, has_child        the search, and whether an unchanged link of a record holds one
//     unchanged                   whether what it finds is freed
//     frees, empties              freeing, and emptying the unchanged links
//     closes                      the close
// Each of these has the name of its definition in rules/specs/Collect.antt. Those that help the search have no definition there:
//     is_waiting, passed_over     the test of the record itself, and where the search goes on
//     link_marks                  a record's changed marks, as a word
// Each function is lent only the tables that it touches, each as a parameter of its own: a rule of this project (decision 26), so that its contract says of no other table
// anything; and what it may know of them stands in its clauses, for no two are lent the same. A link's value is 0 where it holds none: in tables "0 is none"
// (rules/specs/Pool.antt).
#![tactic(auto)]

ghost use Rattle.std.specs.Prelude.{◌≡◌, false, ℕ, ◌+◌, ◌-◌, ◌*◌, ◌≤◌, ◌<◌, length, get_or, replicate};
ghost use Rattle.rules.specs.Size.{links, link_number};
ghost use Rattle.rules.specs.Collect.{unchanged as unchanged_in, has_child, reclaimed as reclaimed_in, empties as empties_in, frees as frees_in};
ghost use Rattle.tables.specs.Bits.{digits, word_count, mark_at, only_standing};
ghost use Rattle.tables.specs.Tables.{Tables};
ghost use Rattle.tables.specs.Lie.{pool_of};
ghost use Rattle.tables.specs.There.{record_there};
ghost use Rattle.tables.specs.Known.{Known};
ghost use Rattle.tables.specs.Event.{SomePool, InPhase, Steps};
ghost use Rattle.reclaim.specs.Lent.{marks_on, links_on, empties_on, frees_on, reclaims_on, RecordOf, InPool, Freeable, Has, Leaves};
ghost use Rattle.reclaim.specs.Raw.{waits, may_wait};

use advance::{onward, stepped};
use rules::{Answer, Answered, Collector, RecordNumber, Sizes};
use tables::count::falls;
use tables::mark::{has_bit, is_on, keep_standing, marks_from, set_mark};
use tables::place::{link_number, record_place};

// "used candidate with count 0, not held"; the mark that is seldom on is asked first.
#[tactic(auto, unfolding(crate::specs::Raw::waits))]
fn is_waiting(used: &[u64], counts: &[u16], held: &[u64], candidates: &[u64], place: usize) -> bool
    requires { (place < length used.now * 64) × (place < length counts.now) × (place < length held.now * 64) × (place < length candidates.now * 64) }
    ensures { result ≡ waits used.now counts.now held.now candidates.now place }
{
    is_on(candidates, place) & (counts[place] == 0) & is_on(used, place) & !is_on(held, place)
}

// Where the search goes on: it passes over the records in whose words no used, unheld candidate is left, a word in one step. Three tables are read at once, and of the first word
// only what is left of it: a chain of two `zip` and a `find` would have to be told both. No `From` makes a place narrower.
fn passed_over(n: u16, used: &[u64], held: &[u64], candidates: &[u64], a: u16) -> u16
    requires { (n ≤ 1024) × (1 ≤ a) × (a ≤ n + 1) × (length used.now ≡ word_count n) × (length held.now ≡ word_count n) × (length candidates.now ≡ word_count n) }
    ensures { (a ≤ result) × (result ≤ n + 1) × ((b : ℕ) → a ≤ b → b < result → may_wait used.now held.now candidates.now (b - 1) ≡ false) }
{
    let place = usize::from(a) - 1;
    let mut rest = place % 64;
    for word in place / 64..used.len() {
        if (used[word] & candidates[word] & !held[word]) >> rest != 0 {
            return (word * 64 + rest) as u16 + 1;
        }
        rest = 0;
    }
    n + 1
}

// "has all changed marks off"
fn unchanged(s: Sizes, changed: &[u64], a: RecordNumber) -> bool
    requires { RecordOf s a × (length changed.now ≡ word_count (links s)) }
    ensures { (t : Tables) (c : Collector) → result ≡ unchanged_in s (pool_of s (marks_on changed.now t) c) a }
{
    let marks = link_marks(s, changed, a);
    (0..usize::from(s.k)).all(|f| !has_bit(marks, f))
}

// The changed marks of a record's links, in the lowest bits of a word.
fn link_marks(s: Sizes, changed: &[u64], a: RecordNumber) -> u64
    requires { RecordOf s a × (length changed.now ≡ word_count (links s)) }
    ensures { (f : ℕ) → f < s.k → get_or (digits 64 result) f false ≡ mark_at changed.now (link_number s a f).0 }
{
    marks_from(
        changed,
        usize::from(link_number(s, a, 0).0),
        usize::from(s.k),
    )
}

// "has .. an unchanged link that holds a record" (document 02, request 8)
fn has_child(s: Sizes, values: &[u16], changed: &[u64], a: RecordNumber) -> bool
    requires { RecordOf s a × (length values.now ≡ links s) × (length changed.now ≡ word_count (links s)) }
    ensures { (t : Tables) (c : Collector) → result ≡ has_child s (pool_of s (links_on values.now changed.now t) c) a }
{
    let from = usize::from(link_number(s, a, 0).0);
    let marks = link_marks(s, changed, a);
    (0..usize::from(s.k)).any(|f| values[from + f] != 0 && !has_bit(marks, f))
}

// What phase 6 takes next: "the lowest used candidate, count 0, not held, that either has all changed marks off .. or has a changed link and also an unchanged link
// that holds a record" (document 02, request 8); "the search goes record by record and link by link and stops at the first record that passes". None where none
// passes.
fn reclaimed(
    s: Sizes,
    used: &[u64],
    counts: &[u16],
    held: &[u64],
    candidates: &[u64],
    values: &[u16],
    changed: &[u64],
) -> Option<RecordNumber>
    requires { SomePool s (reclaims_on used.now counts.now held.now candidates.now values.now changed.now) }
    ensures { ((t : Tables) (c : Collector) → let at : Tables = reclaims_on used.now counts.now held.now candidates.now values.now changed.now t in
        Known s at c → result ≡ record_there (reclaimed_in s (pool_of s at c))) }
{
    let end = usize::from(s.k);
    // The labelled loop over the records, with the one over the links in it, is the form that document 01 asks for: "stops at the first record that passes"
    // (docs/FORMS.md). The record's number is counted by hand, for it jumps.
    let mut a = 1;
    'records: loop {
        if s.n < a {
            break None;
        }
        let record = RecordNumber(a);
        a += 1;
        if !is_waiting(used, counts, held, candidates, record_place(record)) {
            a = passed_over(s.n, used, held, candidates, a);
            continue 'records;
        }
        let marks = link_marks(s, changed, record);
        for f in 0..end {
            if has_bit(marks, f) {
                if has_child(s, values, changed, record) {
                    break 'records Some(record);
                }
                continue 'records;
            }
        }
        break Some(record);
    }
}

// "links from 0 up, the count of the value falls by 1 and at 0 that record becomes a candidate, the link becomes none": of "its unchanged links" (document 02,
// request 8), which are all where the record is freed.
fn empties(
    s: Sizes,
    counts: &mut [u16],
    candidates: &mut [u64],
    values: &mut [u16],
    changed: &[u64],
    a: RecordNumber,
)
    requires { Has InPool s (empties_on counts.old candidates.old values.old changed.now) a }
    ensures { Leaves InPool s (empties_on counts.old candidates.old values.old changed.now) a (empties_in s a)
        (empties_on counts.new candidates.new values.new changed.now) }
{
    for f in 0..s.k {
        let link = usize::from(link_number(s, a, f).0);
        if is_on(changed, link) {
            continue;
        }
        let value = RecordNumber(values[link]);
        falls(counts, candidates, value);
        values[link] = 0;
    }
}

// "Freeing: ..; then the record is free and no candidate."
fn frees(
    s: Sizes,
    used: &mut [u64],
    counts: &mut [u16],
    candidates: &mut [u64],
    values: &mut [u16],
    changed: &[u64],
    a: RecordNumber,
)
    requires { Has Freeable s (frees_on used.old counts.old candidates.old values.old changed.now) a }
    ensures { Leaves Freeable s (frees_on used.old counts.old candidates.old values.old changed.now) a (frees_in s a)
        (frees_on used.new counts.new candidates.new values.new changed.now) }
{
    empties(s, counts, candidates, values, changed, a);
    let place = record_place(a);
    set_mark(used, place, false);
    set_mark(candidates, place, false);
}

// "all held marks off, candidate marks off where the count is not 0", by whole words
fn closes(counts: &[u16], held: &mut [u64], candidates: &mut [u64])
    requires { (length candidates.old ≡ word_count (length counts.now)) × (length counts.now ≤ 1024) }
    ensures { (held.new ≡ replicate (length held.old) 0) × (candidates.new ≡ only_standing 0 counts.now candidates.old) }
{
    held.fill(0);
    keep_standing(candidates, counts, 0);
}

// "Phase 6 now takes the lowest .." (document 02, request 8). "Phase 6 stays. If none passes: .., closed-cycle number up by one, phase 0."
pub fn reclaims(
    s: Sizes,
    used: &mut [u64],
    counts: &mut [u16],
    held: &mut [u64],
    candidates: &mut [u64],
    values: &mut [u16],
    changed: &[u64],
    c: Collector,
) -> Answered
    requires { InPhase 6 s (reclaims_on used.old counts.old held.old candidates.old values.old changed.now) c }
    ensures { Steps 6 s (reclaims_on used.old counts.old held.old candidates.old values.old changed.now) c result
        (reclaims_on used.new counts.new held.new candidates.new values.new changed.now) }
{
    let Some(a) = reclaimed(s, used, counts, held, candidates, values, changed) else {
        closes(counts, held, candidates);
        return stepped(onward(c, 1, 0));
    };
    if !unchanged(s, changed, a) {
        empties(s, counts, candidates, values, changed, a);
        return stepped(c);
    }
    frees(s, used, counts, candidates, values, changed, a);
    Answered {
        answer: Answer::Freed(a),
        collector: c,
    }
}
