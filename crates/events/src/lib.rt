// Any event on a pool that is known to be sound, which lies in lent tables. All of it is inner (decision 4 of docs/DECISIONS.md): the call that takes any
// tables is `pool::event`.
//     event_known    one event
//     collects       one collect event: the step of its phase
#![tactic(auto)]

ghost use Rattle.std.specs.Prelude.{◌≡◌};
ghost use Rattle.tables.specs.Lent.{contents, SameTables};
ghost use Rattle.tables.specs.Known.{Known};
ghost use Rattle.tables.specs.Event.{event_on};

use count::counts as counts_step;
use gather::{clears, opens, scans, snoops as snoops_step, takes};
use reclaim::reclaims;
use rules::{Answered, Collector, Event, Sizes};
use tables::lent::LentTables;
use worker::{drops, loads, looks, makes, moves, posts, stores};

// A collect event on a pool that is known to be sound: "One collect event does one of these". Each step is lent its own tables, so that the phases are cases here and no
// list of functions. Where a step changes some tables and only reads others, both kinds are lent by `&mut`: shared loans beside mutable ones of one struct are not covered.
fn collects(s: Sizes, t: &mut LentTables, c: Collector) -> Answered
    requires { Known s (contents t.old) c }
    ensures done { event_on s (contents t.old) c Event.Collect
        ≡ record { answer = result.answer; collector = result.collector; tables = contents t.new } }
    ensures same { SameTables t.old t.new }
{
    match c.phase {
        0 => opens(s, c),
        1 => snoops_step(s, t.snoops, &mut *t.lengths, c),
        2 => takes(s, t.candidates, t.makers, t.logs, t.history, t.lengths, c),
        3 => clears(s, t.changed, &mut *t.history, &mut *t.lengths, c),
        4 => scans(s, t.held, &mut *t.registers, t.snoops, &mut *t.lengths, c),
        5 => counts_step(
            s,
            t.counts,
            t.candidates,
            &mut *t.values,
            &mut *t.changed,
            &mut *t.logs,
            t.history,
            t.lengths,
            c,
        ),
        _ => reclaims(
            s,
            t.used,
            t.counts,
            t.held,
            t.candidates,
            t.values,
            &mut *t.changed,
            c,
        ),
    }
}

// An event on a pool that is known to be sound.
pub fn event_known(s: Sizes, t: &mut LentTables, c: Collector, e: Event) -> Answered
    requires { Known s (contents t.old) c }
    ensures done { event_on s (contents t.old) c e
        ≡ record { answer = result.answer; collector = result.collector; tables = contents t.new } }
    ensures same { SameTables t.old t.new }
{
    let answer = match e {
        Event::Make { w, r } => makes(s, t.used, t.makers, t.registers, w, r),
        Event::Move { w, r, q } => moves(s, t.registers, w, r, q),
        Event::Drop { w, r } => drops(s, t.registers, w, r),
        Event::Load { w, r, q, f } => loads(s, &mut *t.values, t.registers, w, r, q, f),
        Event::Store { w, q, f, r } => stores(
            s,
            t.held,
            t.values,
            t.changed,
            &mut *t.registers,
            &mut *t.snoops,
            t.logs,
            t.lengths,
            w,
            q,
            f,
            r,
        ),
        Event::Look { w, r, e } => looks(s, &mut *t.values, t.registers, w, r, e),
        Event::Post { w, e, r } => posts(
            s,
            t.held,
            t.values,
            t.changed,
            &mut *t.registers,
            &mut *t.snoops,
            t.logs,
            t.lengths,
            w,
            e,
            r,
        ),
        Event::Collect => return collects(s, t, c),
    };
    Answered {
        answer,
        collector: c,
    }
}
