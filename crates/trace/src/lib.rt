// Whole traces on lent tables.
//     replay_trace    a whole trace: starts fresh, and checks nothing again
// Inner (decision 4 of docs/DECISIONS.md): run_events, the events that stand one after another in a trace, and trace_told, a whole trace, each told to whoever is to be
// told of each event (teller); stand_behind, how the trace stands behind them; ending_of, how a whole trace ends; stops, one that stops before its first event; trace_sized,
// a trace behind its sizes field.
#![tactic(auto)]

pub mod teller;

ghost use Rattle.std.specs.Prelude.{◌≡◌, true, [], Err};
ghost use Rattle.rules.specs.Size.{in_range};
ghost use Rattle.tables.specs.Lent.{contents, SameTables};
ghost use Rattle.tables.specs.Known.{Known};
ghost use Rattle.fresh.specs.Free.{free_in};
ghost use Rattle.trace.specs.Stretch.{ran_on};
ghost use Rattle.trace.specs.Stand.{ended, stand_behind, ending_of};
ghost use Rattle.trace.specs.Traced.{traced, sized};
ghost use Rattle.trace.specs.Told.{told_on, told_sized, told_traced};

use cycles::turn::Turn;
use events::event_known;
use fields::{Field, Reader, RefusedAt, event_at, event_size, read_at};
use fresh::fresh;
use rules::{Answer, Collector, Refusal, Sizes};
use tables::lent::LentTables;
use tables::mark::count_off;
use teller::{Answers, Teller};

// A whole trace's end: how many records are free, and the closed-cycle number.
#[derive(Clone, Copy)]
pub struct Whole {
    pub free: u16,
    pub closed: u16,
}

// How a replay ended: the whole trace; or where it stopped, and why.
pub type Ending = Result<Whole, RefusedAt>;

// What doing the events of a stretch answers: the place behind them, the last step number, how many they are, and the collector's record.
#[derive(Clone, Copy)]
pub struct Ran {
    pub next: usize,
    pub step: u32,
    pub events: usize,
    pub collector: Collector,
}

// What a whole trace answers: how it ended, how many events it had, and the collector's record.
#[derive(Clone, Copy)]
pub struct Replay {
    pub ending: Ending,
    pub events: usize,
    pub collector: Collector,
}

// How a trace stands behind its events, of which a part has been read: it has ended so, or more has to be read; the place of the first byte that is still needed, and
// what may come there.
#[derive(Clone, Copy)]
pub struct Stood {
    pub stand: Option<Ending>,
    pub next: usize,
    pub reader: Reader,
}

impl Stood {
    fn ended(ending: Ending, next: usize, reader: Reader) -> Stood
        ensures { result ≡ ended ending next reader }
    {
        Stood {
            stand: Some(ending),
            next,
            reader,
        }
    }
}

// The events that stand one after another from a place on, up to the first field that is none, on a pool that is known to be sound. The teller is told of each. Inner.
pub fn run_events<T: Teller>(
    s: Sizes,
    t: &mut LentTables,
    c: Collector,
    bytes: &[u8],
    place: usize,
    step: u32,
    teller: &mut T,
) -> Ran
    requires known { Known s (contents t.old) c }
    requires fits { T.fits teller.old step }
    ensures ran { ran_on s (contents t.old) c bytes.now place step [] ≡ record { ran = result; tables = contents t.new; answers = [] } }
    ensures told { teller.new ≡ told_on T.told s (contents t.old) c bytes.now place step teller.old }
    ensures fits { T.fits teller.new result.step }
    ensures same { SameTables t.old t.new }
{
    let workers = usize::from(s.w);
    let mut ran = Ran {
        next: place,
        step,
        events: 0,
        collector: c,
    };
    while let Some(size) = event_size(bytes, ran.next, ran.step) {
        let e = event_at(bytes[ran.next], bytes, ran.next + 7);
        let had = t.lengths[workers];
        let done = event_known(s, t, ran.collector, e);
        let turn = Turn {
            before: ran.collector.phase,
            after: done.collector.phase,
            had,
            has: t.lengths[workers],
            answer: done.answer,
        };
        teller.tell(ran.step, turn, t.to_read().counts);
        ran = Ran {
            next: ran.next + size,
            step: ran.step + 1,
            events: ran.events + 1,
            collector: done.collector,
        };
    }
    ran
}

// How a trace stands behind its events: at the end field and nothing more behind it, or at what is refused. Where fewer than 13 bytes are left and more may come
// a field may not have been read whole. Inner.
pub fn stand_behind(
    n: u16,
    used: &[u64],
    closed: u16,
    bytes: &[u8],
    place: usize,
    reader: Reader,
    last: bool,
) -> Stood
    ensures { result ≡ stand_behind last (free_in n used.now) closed bytes.now place reader }
{
    let mut next = place;
    let mut now = reader;
    // Two fields may still come: the end, and then what stands behind it, which may only be nothing. Two calls would say the same twice.
    for _ in 0..2u8 {
        if !last & (bytes.len() < 13 || bytes.len() - 13 < next) {
            return Stood {
                stand: None,
                next,
                reader: now,
            };
        }
        match read_at(bytes, next, now) {
            Err(e) => return Stood::ended(Err(e), next, now),
            Ok(x) => match x.field {
                Field::End => {
                    next = x.next;
                    now = x.reader;
                }
                Field::Nothing => {
                    let free = count_off(used, n);
                    return Stood::ended(Ok(Whole { free, closed }), next, now);
                }
                _ => break,
            },
        }
    }
    let other = RefusedAt {
        why: Refusal::WrongTag,
        place: next,
    };
    Stood::ended(Err(other), next, now)
}

// How a trace ends that stands so behind its last byte. It waits for nothing there; were it to, it would stop short. Inner.
pub fn ending_of(stand: Option<Ending>, place: usize) -> Ending
    ensures { result ≡ ending_of stand place }
{
    stand.unwrap_or(Err(RefusedAt {
        why: Refusal::StopsShort,
        place,
    }))
}

// A trace that stops before its first event.
fn stops(e: RefusedAt, c: Collector) -> Replay
    ensures { result ≡ record { ending = Err e; events = 0; collector = c } }
{
    Replay {
        ending: Err(e),
        events: 0,
        collector: c,
    }
}

// A trace behind its sizes field: the pool is made fresh, if the lent tables have these sizes' lengths, and the events are done.
fn trace_sized<T: Teller>(
    s: Sizes,
    t: &mut LentTables,
    c: Collector,
    bytes: &[u8],
    place: usize,
    teller: &mut T,
) -> Replay
    requires range { in_range s ≡ true }
    requires fits { T.fits teller.old 0 }
    ensures done { sized s (contents t.old) c bytes.now place [] ≡ record { replay = result; tables = contents t.new; answers = [] } }
    ensures told { teller.new ≡ told_sized T.told s (contents t.old) bytes.now place teller.old }
    ensures same { SameTables t.old t.new }
{
    let made = fresh(s, t, c);
    if let Answer::Refused(why) = made.answer {
        return stops(RefusedAt { why, place: 0 }, c);
    }
    let ran = run_events(s, t, made.collector, bytes, place, 0, teller);
    let reader = Reader::behind(ran.step);
    let closed = ran.collector.closed;
    let stood = stand_behind(s.n, t.to_read().used, closed, bytes, ran.next, reader, true);
    Replay {
        ending: ending_of(stood.stand, ran.next),
        events: ran.events,
        collector: ran.collector,
    }
}

// A whole trace, as `replay_trace` replays it. The teller is told of each event. Inner.
pub fn trace_told<T: Teller>(
    t: &mut LentTables,
    c: Collector,
    bytes: &[u8],
    teller: &mut T,
) -> Replay
    requires { T.fits teller.old 0 }
    ensures done { traced (contents t.old) c bytes.now [] ≡ record { replay = result; tables = contents t.new; answers = [] } }
    ensures told { teller.new ≡ told_traced T.told (contents t.old) bytes.now teller.old }
    ensures same { SameTables t.old t.new }
{
    match read_at(bytes, 0, Reader::FIRST) {
        Err(e) => stops(e, c),
        Ok(first) => match first.field {
            Field::Sizes(s) => trace_sized(s, t, c, bytes, first.next, teller),
            _ => stops(
                RefusedAt {
                    why: Refusal::WrongTag,
                    place: 0,
                },
                c,
            ),
        },
    }
}

// A whole trace on lent tables: any bytes, any tables, any collector's record. An accepted sizes field makes the pool fresh; it is accepted if the lent tables have
// its lengths. Each event's number and value are put into `answers` in turn, as far as there is room. Two wrong programs that the contract rules out: one that
// refuses every trace, and one that does not make the pool fresh.
pub fn replay_trace(t: &mut LentTables, c: Collector, bytes: &[u8], answers: &mut [u16]) -> Replay
    ensures done { traced (contents t.old) c bytes.now answers.old ≡ record { replay = result; tables = contents t.new; answers = answers.new } }
    ensures same { SameTables t.old t.new }
{
    let mut teller = Answers { answers, events: 0 };
    trace_told(t, c, bytes, &mut teller)
}
