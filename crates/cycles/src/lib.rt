// The numbers of a cycle (document 02, request 7), kept up event by event. All of it is inner (decision 4 of docs/DECISIONS.md): the call is `tally::report_trace`, the
// program `report`.
//     turn           an event as these numbers see it
//     Cycle          the numbers of a closed cycle
//     Tally          those of the open cycle, so far; what they are after an event, and at the close
//     Tallied        these, and how many cycles have closed
//     tally_event    the numbers after an event; the cycle that closes with it, if one does, is put into a slice
//     count_sum      the sum of all counts
//     put_closed     the numbers of the cycle that closes, if one does, in a slice
#![tactic(auto)]

pub mod turn;

ghost use Rattle.std.specs.Prelude.{◌≡◌, ◌≤◌, length, option_to_list, IfSome};
ghost use Rattle.cycles.specs.Cycles.{sum};
ghost use Rattle.cycles.specs.Tally.{Countable, Steps};
ghost use Rattle.cycles.specs.Slice.{closed_now, Puts, Counts};

use turn::Turn;

// "`taken` and the entries moved into the history, `freed` and the records freed, `net` and the sum of all counts at the close less that sum at the opening".
#[derive(Clone, Copy)]
pub struct Cycle {
    pub taken: u64,
    pub freed: u64,
    pub net: i32,
}

// The sum of all counts at the opening of the open cycle, and what was taken and freed since then. They mean nothing where no cycle is open: the collector's phase says that
// already, and an `Option` would say it twice.
#[derive(Clone, Copy, Default)]
pub struct Tally {
    pub opening: u32,
    pub taken: u64,
    pub freed: u64,
}

// The numbers of the open cycle, and how many have closed. The numbers of those stand in a caller's slice, three for each, as C lends it.
#[derive(Clone, Copy, Default)]
pub struct Tallied {
    pub tally: Tally,
    pub cycles: usize,
}

// "the sum of all counts"
fn count_sum(counts: &[u16]) -> u32
    requires { length counts.now ≤ 1024 }
    ensures { result ≡ sum counts.now }
{
    counts.iter().map(|c| u32::from(*c)).sum()
}

impl Tally {
    // The numbers of the open cycle after an event. They are set back where a cycle opens.
    fn step(self, counts: &[u16], turn: Turn) -> Tally
        requires { Countable 4294967295 self counts.now }
        ensures { Steps self (sum counts.now) turn result }
    {
        let start = if turn.opens() {
            Tally {
                opening: count_sum(counts),
                ..Tally::default()
            }
        } else {
            self
        };
        Tally {
            opening: start.opening,
            taken: start.taken + turn.taken(),
            freed: start.freed + turn.freed(),
        }
    }

    // The numbers of the cycle that closes with an event, if one does. "the sum of all counts at the close less that sum at the opening": below nought where the counts
    // have fallen. A difference of two i32 is the form that document 01 asks for (docs/FORMS.md).
    fn closed(self, counts: &[u16], turn: Turn) -> Option<Cycle>
        requires { Countable 4294967296 self counts.now }
        ensures closed { option_to_list result ≡ closed_now self (sum counts.now) turn.before turn.after }
        ensures few { IfSome result (λ c. (c.taken ≤ 9223372036854775807) × (c.freed ≤ 9223372036854775807)) }
    {
        if !turn.closes() {
            return None;
        }
        Some(Cycle {
            taken: self.taken,
            freed: self.freed,
            net: count_sum(counts) as i32 - self.opening as i32,
        })
    }
}

// The numbers of the cycle that closes, if one does, are put behind those of `cycles` others, as far as there is room; answers how many have closed then.
#[tactic(auto, using(crate::proofs::Placed::puts_none))]
fn put_closed(numbers: &mut [i64], cycles: usize, closed: Option<Cycle>) -> usize
    requires cycles_bound { cycles ≤ 9223372036854775807 }
    requires few { IfSome closed (λ c. (c.taken ≤ 9223372036854775807) × (c.freed ≤ 9223372036854775807)) }
    ensures { Puts cycles numbers.old (option_to_list closed) result numbers.new }
{
    let Some(c) = closed else {
        return cycles;
    };
    // By its place, not by `as_chunks_mut::<3>()`: what that ensures says nothing of what the slice ends as. The numbers are i64 for C, and what was taken and freed fits.
    if cycles < numbers.len() / 3 {
        let at = cycles * 3;
        numbers[at..at + 3].copy_from_slice(&[c.taken as i64, c.freed as i64, i64::from(c.net)]);
    }
    cycles + 1
}

// An event, by the counts after it. The cycle that closes with it is put into `numbers`.
pub fn tally_event(x: Tallied, counts: &[u16], turn: Turn, numbers: &mut [i64]) -> Tallied
    requires countable { Countable 4294967295 x.tally counts.now }
    requires cycles_bound { x.cycles ≤ 9223372036854775807 }
    ensures { Counts x (sum counts.now) turn numbers.old result numbers.new }
{
    let tally = x.tally.step(counts, turn);
    let cycles = put_closed(numbers, x.cycles, tally.closed(counts, turn));
    Tallied { tally, cycles }
}
