// The collector's own record: "phase, position and closed-cycle number form one record that each step moves on". All of it is inner (decision 4 of
// docs/DECISIONS.md).
//     phase_after, next_closed, moved_on     how the record moves on
//     move_on                                the record that is lent moves on
//     onward                                 the same for a step, which has the record by value
//     stepped                                the answer of a step that freed nothing
#![tactic(auto)]

ghost use Rattle.std.specs.Prelude.{◌≡◌, ◌≤◌, List, length};
ghost use Rattle.rules.specs.Pool.{Entry};
ghost use Rattle.rules.specs.Collect.{phase_after, next_closed};
ghost use Rattle.advance.specs.Moved.{Movable, MovesTo};

use rules::{Answer, Answered, Collector};

// "Phases 3 and 5 are skipped when the history is empty." The history has so many entries.
fn phase_after(phase: u16, entries: u16) -> u16
    requires { phase ≤ 5 }
    ensures { (history : List Entry) → length history ≡ entries → result ≡ phase_after phase history }
{
    match (phase, entries) {
        (2 | 4, 0) => phase + 2,
        _ => phase + 1,
    }
}

// "The closed-cycle number has 16 bits: after 65,535 it goes on at 0."
fn next_closed(closed: u16) -> u16
    ensures { result ≡ next_closed closed }
{
    closed.wrapping_add(1)
}

// "The phase changes within the step that did the last position, and the position returns to 0." The phase has so many positions, phase 0 has one. Phase 6 is left
// by the close: "closed-cycle number up by one, phase 0".
fn moved_on(c: Collector, positions: u16, entries: u16) -> Collector
    requires { Movable c }
    ensures { MovesTo positions entries c result }
{
    if c.phase == 6 {
        return Collector {
            phase: 0,
            position: 0,
            closed: next_closed(c.closed),
        };
    }
    let next = c.position + 1;
    if next < positions {
        return Collector {
            position: next,
            ..c
        };
    }
    Collector {
        phase: phase_after(c.phase, entries),
        position: 0,
        ..c
    }
}

// The record that is lent moves on. It is lent and not handed over, and the work is done by value: document 01 asks for a record "lent by &mut to a thin advance
// function" (docs/FORMS.md).
fn move_on(c: &mut Collector, positions: u16, entries: u16)
    requires { Movable c.old }
    ensures { MovesTo positions entries c.old c.new }
{
    *c = moved_on(*c, positions, entries);
}

// The record after a step, for the step that has it by value.
pub fn onward(c: Collector, positions: u16, entries: u16) -> Collector
    requires { Movable c }
    ensures { MovesTo positions entries c result }
{
    let mut moved = c;
    move_on(&mut moved, positions, entries);
    moved
}

// A step that freed nothing, and the record after it.
pub fn stepped(c: Collector) -> Answered
    ensures { result ≡ record { answer = Answer.Stepped; collector = c } }
{
    Answered {
        answer: Answer::Stepped,
        collector: c,
    }
}
