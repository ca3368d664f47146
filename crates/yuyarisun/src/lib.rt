// The library for C and Rust: the public calls, each `#[unsafe(no_mangle)] pub extern "C"` under a name that begins with `yuyarisun_`. A slice is a pointer and then a length;
// tables must not overlap. The sizes are n, k, w, r and b. A call on a pool answers the number of "Numbers a call may answer"; its value is put into `value`, 0 where it
// refuses. The header is include/yuyarisun.h.
//     yuyarisun_make, _move, _drop, _load, _store, _look, _post, _collect     one event of each kind: `pool::event`
//     yuyarisun_fresh, _sound, _free_records                                  the calls of `fresh`, and `pool::sound`
//     yuyarisun_events, _trace                                                many events at once; a whole trace
//     yuyarisun_report                                                        a whole trace, and the numbers of its closed cycles
//     yuyarisun_join                                                          parts of a trace, joined
//     yuyarisun_inner_event                                                   inner: an event on a pool that is known to be sound; in no header
// Inner: LentCollector, the collector's record in three numbers; answered, an answer in numbers; one_event, one event; refused, a refusal; stopped, what stopped many events; ended, how a trace ended; event_of, the event of a tag.
#![tactic(auto)]

ghost use Rattle.std.specs.Prelude.{◌≡◌, ◌&&◌};
ghost use Rattle.tables.specs.Tables.{lent};
ghost use Rattle.tables.specs.Lent.{contents, SameTables};
ghost use Rattle.fresh.specs.Free.{free_in};
ghost use Rattle.tables.specs.Known.{Known};
ghost use Rattle.tables.specs.Event.{event_on};
ghost use Rattle.clauses.specs.IsSound.{is_sound};
ghost use Rattle.fresh.specs.Fits.{fits};
ghost use Rattle.fresh.specs.Fresh.{made_fresh};
ghost use Rattle.pool.specs.Calls.{called};
ghost use Rattle.trace.specs.Traced.{traced};
ghost use Rattle.tally.specs.Traced.{report_traced};
ghost use Rattle.many.specs.Many.{many_on};
ghost use Rattle.join.specs.Joined.{joined_on};
ghost use Rattle.rules.specs.Reply.{number, value as value_in, refusal_number};
ghost use Rattle.yuyarisun.specs.Exported.{sizes_of, collector_of, event_of, numbers};
ghost use Rattle.yuyarisun.specs.Lent.{collector_in, SameCollector};
ghost use Rattle.yuyarisun.specs.Several.{rest_number, rest_place, many_numbers, ending_number, ending_place, ending_free, trace_numbers, report_numbers};
ghost use Rattle.yuyarisun.specs.Join.{join_numbers};

use events::event_known;
use fields::{RefusedAt, event_at};
use fresh::{free_records, fresh};
use join::join;
use many::many_events;
use pool::{event, sound};
use reply::{number_of, refusal_number, value_of};
use rules::{Answered, Collector, Event, Sizes};
use tables::lent::{LentTables, ReadTables};
use tally::report_trace;
use trace::{Ending, replay_trace};

// The collector's record, in the three numbers that C lends.
#[derive(Drop)]
struct LentCollector<'a> {
    phase: &'a mut u16,
    position: &'a mut u16,
    closed: &'a mut u16,
}

impl LentCollector<'_> {
    ghost use Rattle.std.specs.Prelude.{◌≡◌};
    ghost use Rattle.yuyarisun.specs.Lent.{collector_in, SameCollector};

    fn get(&self) -> Collector
        ensures { result ≡ collector_in self.now }
    {
        Collector {
            phase: *self.phase,
            position: *self.position,
            closed: *self.closed,
        }
    }

    fn set(&mut self, c: Collector)
        ensures set { collector_in self.new ≡ c }
        ensures same { SameCollector self.old self.new }
    {
        *self.phase = c.phase;
        *self.position = c.position;
        *self.closed = c.closed;
    }
}

// What a call on a pool answers, in numbers: the collector's record is set, and the value.
fn answered(x: Answered, c: &mut LentCollector, value: &mut u16) -> u16
    ensures number { result ≡ number x.answer }
    ensures value { value.new ≡ value_in x.answer }
    ensures set { collector_in c.new ≡ x.collector }
    ensures same { SameCollector c.old c.new }
{
    c.set(x.collector);
    *value = value_of(x.answer);
    number_of(x.answer)
}

// One event on a lent pool, in numbers.
fn one_event(s: Sizes, t: &mut LentTables, c: &mut LentCollector, value: &mut u16, e: Event) -> u16
    ensures done { numbers (called s (contents t.old) (collector_in c.old) e)
        ≡ record { number = result; value = value.new; phase = c.new.phase.now; position = c.new.position.now; closed = c.new.closed.now; tables = contents t.new } }
    ensures tables { SameTables t.old t.new }
    ensures collector { SameCollector c.old c.new }
{
    let x = event(s, t, c.get(), e);
    answered(x, c, value)
}

// make: the first free record above the last one made, else the lowest, becomes used, and the register holds it. The value is its number.
#[unsafe(no_mangle)]
pub extern "C" fn yuyarisun_make(
    n: u16,
    k: u16,
    w: u16,
    r: u16,
    b: u16,
    used: &mut [u64],
    counts: &mut [u16],
    held: &mut [u64],
    candidates: &mut [u64],
    makers: &mut [u16],
    values: &mut [u16],
    changed: &mut [u64],
    registers: &mut [u16],
    snoops: &mut [u16],
    logs: &mut [u16],
    history: &mut [u16],
    lengths: &mut [u16],
    phase: &mut u16,
    position: &mut u16,
    closed: &mut u16,
    value: &mut u16,
    worker: u8,
    register: u8,
) -> u16
    ensures { numbers (called (sizes_of n k w r b) (lent used.old counts.old held.old candidates.old makers.old values.old changed.old registers.old snoops.old logs.old history.old lengths.old) (collector_of phase.old position.old closed.old) (Event.Make worker register))
        ≡ record { number = result; value = value.new; phase = phase.new; position = position.new; closed = closed.new; tables = lent used.new counts.new held.new candidates.new makers.new values.new changed.new registers.new snoops.new logs.new history.new lengths.new } }
{
    let s = Sizes { n, k, w, r, b };
    // Written out in each call: the C interface hands each table as a parameter, and a function that made the struct would take the same twelve.
    let mut t = LentTables {
        used,
        counts,
        held,
        candidates,
        makers,
        values,
        changed,
        registers,
        snoops,
        logs,
        history,
        lengths,
    };
    let mut c = LentCollector {
        phase,
        position,
        closed,
    };
    one_event(
        s,
        &mut t,
        &mut c,
        value,
        Event::Make {
            w: worker,
            r: register,
        },
    )
}

// move: the register takes what the register `from` holds, which is the value.
#[unsafe(no_mangle)]
pub extern "C" fn yuyarisun_move(
    n: u16,
    k: u16,
    w: u16,
    r: u16,
    b: u16,
    used: &mut [u64],
    counts: &mut [u16],
    held: &mut [u64],
    candidates: &mut [u64],
    makers: &mut [u16],
    values: &mut [u16],
    changed: &mut [u64],
    registers: &mut [u16],
    snoops: &mut [u16],
    logs: &mut [u16],
    history: &mut [u16],
    lengths: &mut [u16],
    phase: &mut u16,
    position: &mut u16,
    closed: &mut u16,
    value: &mut u16,
    worker: u8,
    register: u8,
    from: u8,
) -> u16
    ensures { numbers (called (sizes_of n k w r b) (lent used.old counts.old held.old candidates.old makers.old values.old changed.old registers.old snoops.old logs.old history.old lengths.old) (collector_of phase.old position.old closed.old) (Event.Move worker register from))
        ≡ record { number = result; value = value.new; phase = phase.new; position = position.new; closed = closed.new; tables = lent used.new counts.new held.new candidates.new makers.new values.new changed.new registers.new snoops.new logs.new history.new lengths.new } }
{
    let s = Sizes { n, k, w, r, b };
    let mut t = LentTables {
        used,
        counts,
        held,
        candidates,
        makers,
        values,
        changed,
        registers,
        snoops,
        logs,
        history,
        lengths,
    };
    let mut c = LentCollector {
        phase,
        position,
        closed,
    };
    one_event(
        s,
        &mut t,
        &mut c,
        value,
        Event::Move {
            w: worker,
            r: register,
            q: from,
        },
    )
}

// drop: the register becomes none. The value is 0.
#[unsafe(no_mangle)]
pub extern "C" fn yuyarisun_drop(
    n: u16,
    k: u16,
    w: u16,
    r: u16,
    b: u16,
    used: &mut [u64],
    counts: &mut [u16],
    held: &mut [u64],
    candidates: &mut [u64],
    makers: &mut [u16],
    values: &mut [u16],
    changed: &mut [u64],
    registers: &mut [u16],
    snoops: &mut [u16],
    logs: &mut [u16],
    history: &mut [u16],
    lengths: &mut [u16],
    phase: &mut u16,
    position: &mut u16,
    closed: &mut u16,
    value: &mut u16,
    worker: u8,
    register: u8,
) -> u16
    ensures { numbers (called (sizes_of n k w r b) (lent used.old counts.old held.old candidates.old makers.old values.old changed.old registers.old snoops.old logs.old history.old lengths.old) (collector_of phase.old position.old closed.old) (Event.Drop worker register))
        ≡ record { number = result; value = value.new; phase = phase.new; position = position.new; closed = closed.new; tables = lent used.new counts.new held.new candidates.new makers.new values.new changed.new registers.new snoops.new logs.new history.new lengths.new } }
{
    let s = Sizes { n, k, w, r, b };
    let mut t = LentTables {
        used,
        counts,
        held,
        candidates,
        makers,
        values,
        changed,
        registers,
        snoops,
        logs,
        history,
        lengths,
    };
    let mut c = LentCollector {
        phase,
        position,
        closed,
    };
    one_event(
        s,
        &mut t,
        &mut c,
        value,
        Event::Drop {
            w: worker,
            r: register,
        },
    )
}

// load: the register takes the link of the record in the register `through`, which is the value.
#[unsafe(no_mangle)]
pub extern "C" fn yuyarisun_load(
    n: u16,
    k: u16,
    w: u16,
    r: u16,
    b: u16,
    used: &mut [u64],
    counts: &mut [u16],
    held: &mut [u64],
    candidates: &mut [u64],
    makers: &mut [u16],
    values: &mut [u16],
    changed: &mut [u64],
    registers: &mut [u16],
    snoops: &mut [u16],
    logs: &mut [u16],
    history: &mut [u16],
    lengths: &mut [u16],
    phase: &mut u16,
    position: &mut u16,
    closed: &mut u16,
    value: &mut u16,
    worker: u8,
    register: u8,
    through: u8,
    link: u8,
) -> u16
    ensures { numbers (called (sizes_of n k w r b) (lent used.old counts.old held.old candidates.old makers.old values.old changed.old registers.old snoops.old logs.old history.old lengths.old) (collector_of phase.old position.old closed.old) (Event.Load worker register through link))
        ≡ record { number = result; value = value.new; phase = phase.new; position = position.new; closed = closed.new; tables = lent used.new counts.new held.new candidates.new makers.new values.new changed.new registers.new snoops.new logs.new history.new lengths.new } }
{
    let s = Sizes { n, k, w, r, b };
    let mut t = LentTables {
        used,
        counts,
        held,
        candidates,
        makers,
        values,
        changed,
        registers,
        snoops,
        logs,
        history,
        lengths,
    };
    let mut c = LentCollector {
        phase,
        position,
        closed,
    };
    one_event(
        s,
        &mut t,
        &mut c,
        value,
        Event::Load {
            w: worker,
            r: register,
            q: through,
            f: link,
        },
    )
}

// store: the link of the record in the register `through` takes what the register holds. The value is the one overwritten.
#[unsafe(no_mangle)]
pub extern "C" fn yuyarisun_store(
    n: u16,
    k: u16,
    w: u16,
    r: u16,
    b: u16,
    used: &mut [u64],
    counts: &mut [u16],
    held: &mut [u64],
    candidates: &mut [u64],
    makers: &mut [u16],
    values: &mut [u16],
    changed: &mut [u64],
    registers: &mut [u16],
    snoops: &mut [u16],
    logs: &mut [u16],
    history: &mut [u16],
    lengths: &mut [u16],
    phase: &mut u16,
    position: &mut u16,
    closed: &mut u16,
    value: &mut u16,
    worker: u8,
    through: u8,
    link: u8,
    register: u8,
) -> u16
    ensures { numbers (called (sizes_of n k w r b) (lent used.old counts.old held.old candidates.old makers.old values.old changed.old registers.old snoops.old logs.old history.old lengths.old) (collector_of phase.old position.old closed.old) (Event.Store worker through link register))
        ≡ record { number = result; value = value.new; phase = phase.new; position = position.new; closed = closed.new; tables = lent used.new counts.new held.new candidates.new makers.new values.new changed.new registers.new snoops.new logs.new history.new lengths.new } }
{
    let s = Sizes { n, k, w, r, b };
    let mut t = LentTables {
        used,
        counts,
        held,
        candidates,
        makers,
        values,
        changed,
        registers,
        snoops,
        logs,
        history,
        lengths,
    };
    let mut c = LentCollector {
        phase,
        position,
        closed,
    };
    one_event(
        s,
        &mut t,
        &mut c,
        value,
        Event::Store {
            w: worker,
            q: through,
            f: link,
            r: register,
        },
    )
}

// look: the register takes what the board entry holds, which is the value.
#[unsafe(no_mangle)]
pub extern "C" fn yuyarisun_look(
    n: u16,
    k: u16,
    w: u16,
    r: u16,
    b: u16,
    used: &mut [u64],
    counts: &mut [u16],
    held: &mut [u64],
    candidates: &mut [u64],
    makers: &mut [u16],
    values: &mut [u16],
    changed: &mut [u64],
    registers: &mut [u16],
    snoops: &mut [u16],
    logs: &mut [u16],
    history: &mut [u16],
    lengths: &mut [u16],
    phase: &mut u16,
    position: &mut u16,
    closed: &mut u16,
    value: &mut u16,
    worker: u8,
    register: u8,
    entry: u8,
) -> u16
    ensures { numbers (called (sizes_of n k w r b) (lent used.old counts.old held.old candidates.old makers.old values.old changed.old registers.old snoops.old logs.old history.old lengths.old) (collector_of phase.old position.old closed.old) (Event.Look worker register entry))
        ≡ record { number = result; value = value.new; phase = phase.new; position = position.new; closed = closed.new; tables = lent used.new counts.new held.new candidates.new makers.new values.new changed.new registers.new snoops.new logs.new history.new lengths.new } }
{
    let s = Sizes { n, k, w, r, b };
    let mut t = LentTables {
        used,
        counts,
        held,
        candidates,
        makers,
        values,
        changed,
        registers,
        snoops,
        logs,
        history,
        lengths,
    };
    let mut c = LentCollector {
        phase,
        position,
        closed,
    };
    one_event(
        s,
        &mut t,
        &mut c,
        value,
        Event::Look {
            w: worker,
            r: register,
            e: entry,
        },
    )
}

// post: the board entry takes what the register holds. The value is the one overwritten.
#[unsafe(no_mangle)]
pub extern "C" fn yuyarisun_post(
    n: u16,
    k: u16,
    w: u16,
    r: u16,
    b: u16,
    used: &mut [u64],
    counts: &mut [u16],
    held: &mut [u64],
    candidates: &mut [u64],
    makers: &mut [u16],
    values: &mut [u16],
    changed: &mut [u64],
    registers: &mut [u16],
    snoops: &mut [u16],
    logs: &mut [u16],
    history: &mut [u16],
    lengths: &mut [u16],
    phase: &mut u16,
    position: &mut u16,
    closed: &mut u16,
    value: &mut u16,
    worker: u8,
    entry: u8,
    register: u8,
) -> u16
    ensures { numbers (called (sizes_of n k w r b) (lent used.old counts.old held.old candidates.old makers.old values.old changed.old registers.old snoops.old logs.old history.old lengths.old) (collector_of phase.old position.old closed.old) (Event.Post worker entry register))
        ≡ record { number = result; value = value.new; phase = phase.new; position = position.new; closed = closed.new; tables = lent used.new counts.new held.new candidates.new makers.new values.new changed.new registers.new snoops.new logs.new history.new lengths.new } }
{
    let s = Sizes { n, k, w, r, b };
    let mut t = LentTables {
        used,
        counts,
        held,
        candidates,
        makers,
        values,
        changed,
        registers,
        snoops,
        logs,
        history,
        lengths,
    };
    let mut c = LentCollector {
        phase,
        position,
        closed,
    };
    one_event(
        s,
        &mut t,
        &mut c,
        value,
        Event::Post {
            w: worker,
            e: entry,
            r: register,
        },
    )
}

// collect: one collector step. The value is the record freed, otherwise 0.
#[unsafe(no_mangle)]
pub extern "C" fn yuyarisun_collect(
    n: u16,
    k: u16,
    w: u16,
    r: u16,
    b: u16,
    used: &mut [u64],
    counts: &mut [u16],
    held: &mut [u64],
    candidates: &mut [u64],
    makers: &mut [u16],
    values: &mut [u16],
    changed: &mut [u64],
    registers: &mut [u16],
    snoops: &mut [u16],
    logs: &mut [u16],
    history: &mut [u16],
    lengths: &mut [u16],
    phase: &mut u16,
    position: &mut u16,
    closed: &mut u16,
    value: &mut u16,
) -> u16
    ensures { numbers (called (sizes_of n k w r b) (lent used.old counts.old held.old candidates.old makers.old values.old changed.old registers.old snoops.old logs.old history.old lengths.old) (collector_of phase.old position.old closed.old) Event.Collect)
        ≡ record { number = result; value = value.new; phase = phase.new; position = position.new; closed = closed.new; tables = lent used.new counts.new held.new candidates.new makers.new values.new changed.new registers.new snoops.new logs.new history.new lengths.new } }
{
    let s = Sizes { n, k, w, r, b };
    let mut t = LentTables {
        used,
        counts,
        held,
        candidates,
        makers,
        values,
        changed,
        registers,
        snoops,
        logs,
        history,
        lengths,
    };
    let mut c = LentCollector {
        phase,
        position,
        closed,
    };
    one_event(s, &mut t, &mut c, value, Event::Collect)
}

// Makes lent tables a fresh pool, whatever they held; 1 where a size or a length is wrong, and then nothing changes.
#[unsafe(no_mangle)]
pub extern "C" fn yuyarisun_fresh(
    n: u16,
    k: u16,
    w: u16,
    r: u16,
    b: u16,
    used: &mut [u64],
    counts: &mut [u16],
    held: &mut [u64],
    candidates: &mut [u64],
    makers: &mut [u16],
    values: &mut [u16],
    changed: &mut [u64],
    registers: &mut [u16],
    snoops: &mut [u16],
    logs: &mut [u16],
    history: &mut [u16],
    lengths: &mut [u16],
    phase: &mut u16,
    position: &mut u16,
    closed: &mut u16,
) -> u16
    ensures { numbers (made_fresh (sizes_of n k w r b) (lent used.old counts.old held.old candidates.old makers.old values.old changed.old registers.old snoops.old logs.old history.old lengths.old) (collector_of phase.old position.old closed.old))
        ≡ record { number = result; value = 0; phase = phase.new; position = position.new; closed = closed.new; tables = lent used.new counts.new held.new candidates.new makers.new values.new changed.new registers.new snoops.new logs.new history.new lengths.new } }
{
    let s = Sizes { n, k, w, r, b };
    let mut t = LentTables {
        used,
        counts,
        held,
        candidates,
        makers,
        values,
        changed,
        registers,
        snoops,
        logs,
        history,
        lengths,
    };
    let mut c = LentCollector {
        phase,
        position,
        closed,
    };
    let x = fresh(s, &mut t, c.get());
    c.set(x.collector);
    number_of(x.answer)
}

// Whether sizes are in range, every length is exact and the pool is sound.
#[unsafe(no_mangle)]
pub extern "C" fn yuyarisun_sound(
    n: u16,
    k: u16,
    w: u16,
    r: u16,
    b: u16,
    used: &[u64],
    counts: &[u16],
    held: &[u64],
    candidates: &[u64],
    makers: &[u16],
    values: &[u16],
    changed: &[u64],
    registers: &[u16],
    snoops: &[u16],
    logs: &[u16],
    history: &[u16],
    lengths: &[u16],
    phase: u16,
    position: u16,
    closed: u16,
) -> bool
    ensures { result ≡ (fits (sizes_of n k w r b) (lent used.now counts.now held.now candidates.now makers.now values.now changed.now registers.now snoops.now logs.now history.now lengths.now) && is_sound (sizes_of n k w r b) (lent used.now counts.now held.now candidates.now makers.now values.now changed.now registers.now snoops.now logs.now history.now lengths.now) (collector_of phase position closed)) }
{
    let t = ReadTables {
        used,
        counts,
        held,
        candidates,
        makers,
        values,
        changed,
        registers,
        snoops,
        logs,
        history,
        lengths,
    };
    let c = Collector {
        phase,
        position,
        closed,
    };
    sound(Sizes { n, k, w, r, b }, t, c)
}

// How many records are free, of n in words of used marks: n less the ones, whatever words these are, and however many; where there are more ones, 0.
#[unsafe(no_mangle)]
pub extern "C" fn yuyarisun_free_records(n: u16, used: &[u64]) -> usize
    ensures { result ≡ free_in n used.now }
{
    free_records(n, used)
}

// The event of a trace's tag, with its numbers in the trace's order; collect, if it is no other's.
#[tactic(auto, unfolding(fields::specs::Field::payload_of, fields::specs::Field::event_at, crate::specs::Exported::event_of))]
fn event_of(tag: u8, a: u8, b: u8, c: u8, d: u8) -> Event
    ensures { result ≡ event_of tag a b c d }
{
    event_at(tag, &[a, b, c, d], 0)
}

// An event on a pool that is known to be sound, which nothing checks. Inner: it is for the Rust type, whose tables are its own (rust/src/lib.rs), and in no header.
#[unsafe(no_mangle)]
pub extern "C" fn yuyarisun_inner_event(
    n: u16,
    k: u16,
    w: u16,
    r: u16,
    b: u16,
    used: &mut [u64],
    counts: &mut [u16],
    held: &mut [u64],
    candidates: &mut [u64],
    makers: &mut [u16],
    values: &mut [u16],
    changed: &mut [u64],
    registers: &mut [u16],
    snoops: &mut [u16],
    logs: &mut [u16],
    history: &mut [u16],
    lengths: &mut [u16],
    phase: &mut u16,
    position: &mut u16,
    closed: &mut u16,
    value: &mut u16,
    tag: u8,
    first: u8,
    second: u8,
    third: u8,
    fourth: u8,
) -> u16
    requires { Known (sizes_of n k w r b) (lent used.old counts.old held.old candidates.old makers.old values.old changed.old registers.old snoops.old logs.old history.old lengths.old) (collector_of phase.old position.old closed.old) }
    ensures { numbers (event_on (sizes_of n k w r b) (lent used.old counts.old held.old candidates.old makers.old values.old changed.old registers.old snoops.old logs.old history.old lengths.old) (collector_of phase.old position.old closed.old) (event_of tag first second third fourth))
        ≡ record { number = result; value = value.new; phase = phase.new; position = position.new; closed = closed.new; tables = lent used.new counts.new held.new candidates.new makers.new values.new changed.new registers.new snoops.new logs.new history.new lengths.new } }
{
    let s = Sizes { n, k, w, r, b };
    let mut t = LentTables {
        used,
        counts,
        held,
        candidates,
        makers,
        values,
        changed,
        registers,
        snoops,
        logs,
        history,
        lengths,
    };
    let mut c = LentCollector {
        phase,
        position,
        closed,
    };
    let e = event_of(tag, first, second, third, fourth);
    let x = event_known(s, &mut t, c.get(), e);
    answered(x, &mut c, value)
}

// A refusal, in numbers: its place into `place`.
fn refused(e: RefusedAt, place: &mut usize) -> u16
    ensures number { result ≡ refusal_number e.why }
    ensures place { place.new ≡ e.place }
{
    *place = e.place;
    refusal_number(e.why)
}

// What stopped many events, in numbers: its place into `place`, the one behind the last of them where nothing did.
fn stopped(rest: Result<(), RefusedAt>, next: usize, place: &mut usize) -> u16
    ensures number { result ≡ rest_number rest }
    ensures place { place.new ≡ rest_place rest next }
{
    match rest {
        Ok(()) => {
            *place = next;
            0
        }
        Err(e) => refused(e, place),
    }
}

// Many events at once: event fields as a trace has them. The pool is checked once. `step` is the last step number before them and becomes their last; each event's
// number and value are put into `answers` in turn, as far as there is room, and how many there were into `events`. The answer is 0 if every byte was taken; else
// the number of the refusal, with its place in `place`, and the events before it are done.
#[unsafe(no_mangle)]
pub extern "C" fn yuyarisun_events(
    n: u16,
    k: u16,
    w: u16,
    r: u16,
    b: u16,
    used: &mut [u64],
    counts: &mut [u16],
    held: &mut [u64],
    candidates: &mut [u64],
    makers: &mut [u16],
    values: &mut [u16],
    changed: &mut [u64],
    registers: &mut [u16],
    snoops: &mut [u16],
    logs: &mut [u16],
    history: &mut [u16],
    lengths: &mut [u16],
    phase: &mut u16,
    position: &mut u16,
    closed: &mut u16,
    bytes: &[u8],
    step: &mut u32,
    answers: &mut [u16],
    events: &mut usize,
    place: &mut usize,
) -> u16
    ensures { many_numbers (many_on (sizes_of n k w r b) (lent used.old counts.old held.old candidates.old makers.old values.old changed.old registers.old snoops.old logs.old history.old lengths.old) (collector_of phase.old position.old closed.old) bytes.now step.old answers.old)
        ≡ record { number = result; place = place.new; step = step.new; events = events.new; phase = phase.new; position = position.new; closed = closed.new; tables = lent used.new counts.new held.new candidates.new makers.new values.new changed.new registers.new snoops.new logs.new history.new lengths.new; answers = answers.new } }
{
    let s = Sizes { n, k, w, r, b };
    let mut t = LentTables {
        used,
        counts,
        held,
        candidates,
        makers,
        values,
        changed,
        registers,
        snoops,
        logs,
        history,
        lengths,
    };
    let mut c = LentCollector {
        phase,
        position,
        closed,
    };
    let x = many_events(s, &mut t, c.get(), bytes, *step, answers);
    c.set(x.ran.collector);
    *step = x.ran.step;
    *events = x.ran.events;
    stopped(x.rest, x.ran.next, place)
}

// How a trace ended, in numbers: the free records into `free`, the place of a refusal into `place`, 0 where there is none.
fn ended(ending: Ending, free: &mut u16, place: &mut usize) -> u16
    ensures number { result ≡ ending_number ending }
    ensures free { free.new ≡ ending_free ending }
    ensures place { place.new ≡ ending_place ending }
{
    match ending {
        Ok(whole) => {
            *free = whole.free;
            *place = 0;
            0
        }
        Err(e) => {
            *free = 0;
            refused(e, place)
        }
    }
}

// A whole trace. Its sizes field makes the pool fresh, if the lent tables have these sizes' lengths. Each event's number and value are put into `answers` in turn,
// as far as there is room, and how many there were into `events`. The answer is 0 for a whole trace, with the free records in `free` and the closed-cycle number in
// `closed`; else the number of the refusal, with its place in `place`, and the tables are as the fields before left them.
#[unsafe(no_mangle)]
pub extern "C" fn yuyarisun_trace(
    used: &mut [u64],
    counts: &mut [u16],
    held: &mut [u64],
    candidates: &mut [u64],
    makers: &mut [u16],
    values: &mut [u16],
    changed: &mut [u64],
    registers: &mut [u16],
    snoops: &mut [u16],
    logs: &mut [u16],
    history: &mut [u16],
    lengths: &mut [u16],
    phase: &mut u16,
    position: &mut u16,
    closed: &mut u16,
    bytes: &[u8],
    answers: &mut [u16],
    events: &mut usize,
    free: &mut u16,
    place: &mut usize,
) -> u16
    ensures { trace_numbers (traced (lent used.old counts.old held.old candidates.old makers.old values.old changed.old registers.old snoops.old logs.old history.old lengths.old) (collector_of phase.old position.old closed.old) bytes.now answers.old)
        ≡ record { number = result; free = free.new; place = place.new; events = events.new; phase = phase.new; position = position.new; closed = closed.new; tables = lent used.new counts.new held.new candidates.new makers.new values.new changed.new registers.new snoops.new logs.new history.new lengths.new; answers = answers.new } }
{
    let mut t = LentTables {
        used,
        counts,
        held,
        candidates,
        makers,
        values,
        changed,
        registers,
        snoops,
        logs,
        history,
        lengths,
    };
    let mut c = LentCollector {
        phase,
        position,
        closed,
    };
    let x = replay_trace(&mut t, c.get(), bytes, answers);
    c.set(x.collector);
    *events = x.events;
    ended(x.ending, free, place)
}

// A whole trace, as `yuyarisun_trace` does it. In the place of the answers, the numbers of each cycle that closes are put into `lines` in turn, as far as there is room:
// what it took, what it freed, and the net; and how many have closed into `cycles`.
#[unsafe(no_mangle)]
pub extern "C" fn yuyarisun_report(
    used: &mut [u64],
    counts: &mut [u16],
    held: &mut [u64],
    candidates: &mut [u64],
    makers: &mut [u16],
    values: &mut [u16],
    changed: &mut [u64],
    registers: &mut [u16],
    snoops: &mut [u16],
    logs: &mut [u16],
    history: &mut [u16],
    lengths: &mut [u16],
    phase: &mut u16,
    position: &mut u16,
    closed: &mut u16,
    bytes: &[u8],
    lines: &mut [i64],
    events: &mut usize,
    cycles: &mut usize,
    free: &mut u16,
    place: &mut usize,
) -> u16
    ensures { report_numbers (report_traced (lent used.old counts.old held.old candidates.old makers.old values.old changed.old registers.old snoops.old logs.old history.old lengths.old) (collector_of phase.old position.old closed.old) bytes.now lines.old)
        ≡ record { number = result; free = free.new; place = place.new; events = events.new; cycles = cycles.new; phase = phase.new; position = position.new; closed = closed.new; tables = lent used.new counts.new held.new candidates.new makers.new values.new changed.new registers.new snoops.new logs.new history.new lengths.new; numbers = lines.new } }
{
    let mut t = LentTables {
        used,
        counts,
        held,
        candidates,
        makers,
        values,
        changed,
        registers,
        snoops,
        logs,
        history,
        lengths,
    };
    let mut c = LentCollector {
        phase,
        position,
        closed,
    };
    let x = report_trace(&mut t, c.get(), bytes, lines);
    c.set(x.replay.collector);
    *events = x.replay.events;
    *cycles = x.cycles;
    ended(x.replay.ending, free, place)
}

// Parts of a trace, joined: `parts` has them end to end, `lengths` how long each is. The answer is 0, with the joined trace at the beginning of `out` and its length
// in `length`; else the number of the refusal, with its place in `place`, and nothing is written to `out`.
#[unsafe(no_mangle)]
pub extern "C" fn yuyarisun_join(
    parts: &[u8],
    lengths: &[u64],
    out: &mut [u8],
    length: &mut usize,
    place: &mut usize,
) -> u16
    ensures { join_numbers (joined_on parts.now lengths.now out.old)
        ≡ record { number = result; length = length.new; place = place.new; out = out.new } }
{
    match join(parts, lengths, out) {
        Ok(n) => {
            *length = n;
            *place = 0;
            0
        }
        Err(e) => {
            *length = 0;
            refused(e, place)
        }
    }
}
