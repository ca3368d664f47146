// An event as the numbers of a cycle see it. Inner.
//     Turn               an event: the collector's phases and the history's lengths before and after it, and its answer
//     taken, freed       what it takes and frees
//     opens, closes      whether a cycle opens or closes with it
ghost use Rattle.std.specs.Prelude.{◌≡◌, ◌≤◌};

use rules::Answer;

// In phase 2 the history only grows.
#[derive(Clone, Copy)]
pub struct Turn {
    pub before: u16,
    pub after: u16,
    pub had: u16,
    pub has: u16,
    pub answer: Answer,
    pub ghost had_le_has: { before ≡ 2 → had ≤ has },
}

impl Turn {
    ghost use Rattle.cycles.specs.Cycles.{freed_by, opens_at, closes_at};
    ghost use Rattle.cycles.specs.Tally.{taken_at};

    // In phase 2 the history grows by what is taken.
    pub(crate) fn taken(self) -> u64
        ensures taken { result ≡ taken_at self.before self.had self.has }
        ensures few { result ≤ 65535 }
    {
        if self.before == 2 {
            u64::from(self.has - self.had)
        } else {
            0
        }
    }

    // "the answer is the record freed, otherwise 0"
    #[tactic(auto, unfolding(crate::specs::Cycles::freed_by))]
    pub(crate) fn freed(self) -> u64
        ensures freed { result ≡ freed_by self.answer }
        ensures few { result ≤ 1 }
    {
        match self.answer {
            Answer::Freed(_) => 1,
            _ => 0,
        }
    }

    pub(crate) fn opens(self) -> bool
        ensures { result ≡ opens_at self.before self.after }
    {
        (self.before == 0) & (self.after != 0)
    }

    pub(crate) fn closes(self) -> bool
        ensures { result ≡ closes_at self.before self.after }
    {
        (self.before != 0) & (self.after == 0)
    }
}
