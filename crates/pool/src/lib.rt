// The public calls that look into a pool that lies in lent tables. No call has a `requires`: each takes any sizes, any lengths, any contents, any collector's record
// and any event, and its contract is one equation that gives its answer, the collector's record and every table entry after it.
//     event             one event: checks the pool, then does the event
//     sound             whether the tables are of a sound pool
// Inner (decision 4 of docs/DECISIONS.md): check, the two tests of a call on a pool.
#![tactic(auto)]

ghost use Rattle.std.specs.Prelude.{◌≡◌, ◌&&◌};
ghost use Rattle.tables.specs.Lent.{contents, seen, SameTables};
ghost use Rattle.clauses.specs.IsSound.{is_sound};
ghost use Rattle.fresh.specs.Fits.{fits};
ghost use Rattle.pool.specs.Calls.{checked, called};

use events::event_known;
use fresh::has_shape;
use inspect::inspect;
use rules::{Answer, Answered, Collector, Event, Refusal, Sizes};
use tables::lent::{LentTables, ReadTables};

// What refuses a call on a pool before it does anything: 1 where a size or a length is wrong, else 2 where the pool is not sound. Inner. Laid into each call, for it is
// handed the twelve tables, and putting them together for it cost a refused call half as much again.
#[inline(always)]
pub fn check(s: Sizes, t: ReadTables, c: Collector) -> Result<(), Refusal>
    ensures { result ≡ checked s (seen t.entry) c }
{
    if !has_shape(s, t) {
        return Err(Refusal::WrongSize);
    }
    if !inspect(s, t, c) {
        return Err(Refusal::NotSound);
    }
    Ok(())
}

// Whether sizes are in range, every length is exact and the pool is sound, every clause of it. Two wrong programs that the contract rules out: one that forgets
// a clause, and one that answers false of every pool but the fresh one.
pub fn sound(s: Sizes, t: ReadTables, c: Collector) -> bool
    ensures { result ≡ (fits s (seen t.entry) && is_sound s (seen t.entry) c) }
{
    check(s, t, c).is_ok()
}

// One event on a lent pool. Refusals in the order 1, 2, 3, 13, 14, 4, then 5; a refused event has the value 0 and changes nothing, neither a table nor the
// collector's record. Two wrong programs that the contract rules out: one that refuses everything or changes nothing, and one that is right on the first event of a
// pool only.
pub fn event(s: Sizes, t: &mut LentTables, c: Collector, e: Event) -> Answered
    ensures done { called s (contents t.old) c e ≡ record { answer = result.answer; collector = result.collector; tables = contents t.new } }
    ensures same { SameTables t.old t.new }
{
    if let Err(why) = check(s, t.to_read(), c) {
        return Answered {
            answer: Answer::Refused(why),
            collector: c,
        };
    }
    event_known(s, t, c, e)
}
