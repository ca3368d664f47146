// Who is told of the events of a trace, and what it keeps of them. Inner.
//     Teller     is told of each event, in turn
//     Answers    keeps each event's number and value, in a slice
ghost use Rattle.std.specs.Prelude.{◌≡◌, ◌+◌, ◌≤◌, ◌<◌, length};

use cycles::turn::Turn;
use reply::{number_of, value_of};

pub trait Teller {
    ghost use Rattle.std.specs.Prelude.{ℕ, List};
    ghost use Rattle.rules.specs.declared.Answer.{Answer};

    // What is kept after an event: by the counts behind it, the collector's phases and the history's lengths before and behind it, and its answer.
    ghost told: { Self → (counts : List ℕ) → (before after had has : ℕ) → Answer → Self };

    // What is kept up to this step number has room for what is told next.
    ghost fits: { Self → (step : ℕ) → Type 0 };

    // An event behind this step.
    fn tell(&mut self, step: u32, turn: Turn, counts: &[u16])
        requires step_bound { step < 4294967295 }
        requires fits { fits self.old step }
        requires counts_len_bound { length counts.now ≤ 1024 }
        ensures told { self.new ≡ told self.old counts.now turn.before turn.after turn.had turn.has turn.answer }
        ensures fits { fits self.new (step + 1) };
}

// The numbers and values of `events` events, in turn, as far as there is room.
#[derive(Drop)]
pub struct Answers<'a> {
    pub answers: &'a mut [u16],
    pub events: usize,
}

impl Teller for Answers<'_> {
    ghost use Rattle.trace.specs.Told.{answer_put};

    ghost told = { answer_put };

    ghost fits = { λ x step. x.events ≤ step };

    fn tell(&mut self, step: u32, turn: Turn, counts: &[u16]) {
        // By the places of a pair: `as_chunks_mut` with `get_mut` would name the pair, but std does not say what the slice holds after a write through them.
        let at = self.events * 2;
        if at + 1 < self.answers.len() {
            self.answers[at] = number_of(turn.answer);
            self.answers[at + 1] = value_of(turn.answer);
        }
        self.events += 1;
    }
}
