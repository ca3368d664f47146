// Many events at once on lent tables: a caller with many events pays for the check once.
//     many_events     the events that stand one after another in a byte string, as a trace has them
// Inner: rest_of, what stands behind them.
#![tactic(auto)]

ghost use Rattle.std.specs.Prelude.{◌≡◌};
ghost use Rattle.tables.specs.Lent.{contents, SameTables};
ghost use Rattle.many.specs.Many.{rest_at, many_on};

use fields::{Reader, RefusedAt, read_at};
use pool::check;
use rules::{Collector, Refusal, Sizes};
use tables::lent::LentTables;
use trace::teller::Answers;
use trace::{Ran, run_events};

// What the call answers: what stopped the events, if anything did, and where (1 and 2 have the place 0); the place behind the events, the last step number, how
// many they were, and the collector's record.
#[derive(Clone, Copy)]
pub struct Many {
    pub rest: Result<(), RefusedAt>,
    pub ran: Ran,
}

// What stands behind the events that were done: no byte more, or a field that is no event, with its number and place.
#[tactic(auto, unfolding(crate::specs::Many::rest_at))]
fn rest_of(bytes: &[u8], place: usize, step: u32) -> Result<(), RefusedAt>
    ensures { result ≡ rest_at bytes.now place step }
{
    if place >= bytes.len() {
        return Ok(());
    }
    read_at(bytes, place, Reader::behind(step))?;
    Err(RefusedAt {
        why: Refusal::WrongTag,
        place,
    })
}

// Event fields as a trace has them, from the beginning of `bytes` up to the first field that is none; the first has the step number behind `step`. The pool is
// checked once. Each event's number and value are put into `answers` in turn, as far as there is room. Two wrong programs that the contract rules out: one that
// does the first event only, and one that answers 2 and has done some events.
pub fn many_events(
    s: Sizes,
    t: &mut LentTables,
    c: Collector,
    bytes: &[u8],
    step: u32,
    answers: &mut [u16],
) -> Many
    ensures done { many_on s (contents t.old) c bytes.now step answers.old
        ≡ record { rest = result.rest; ran = result.ran; tables = contents t.new; answers = answers.new } }
    ensures same { SameTables t.old t.new }
{
    if let Err(why) = check(s, t.to_read(), c) {
        return Many {
            rest: Err(RefusedAt { why, place: 0 }),
            ran: Ran {
                next: 0,
                step,
                events: 0,
                collector: c,
            },
        };
    }
    let mut teller = Answers { answers, events: 0 };
    let ran = run_events(s, t, c, bytes, 0, step, &mut teller);
    Many {
        rest: rest_of(bytes, ran.next, ran.step),
        ran,
    }
}
