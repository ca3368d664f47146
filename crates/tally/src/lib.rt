// Traces on lent tables, with the numbers of each closed cycle (document 02, request 7).
//     report_trace    a whole trace: the call
// Inner (decision 4 of docs/DECISIONS.md): Cycles, which is told of each event of a trace and keeps the numbers of its cycles.
#![tactic(auto)]

ghost use Rattle.std.specs.Prelude.{◌≡◌, ◌≤◌};
ghost use Rattle.tables.specs.Lent.{contents, SameTables};
ghost use Rattle.cycles.specs.Tally.{Few};
ghost use Rattle.tally.specs.Traced.{report_traced};

use cycles::turn::Turn;
use cycles::{Tallied, tally_event};
use rules::Collector;
use tables::lent::LentTables;
use trace::teller::Teller;
use trace::{Replay, trace_told};

// The numbers of each cycle that has closed, in turn, as far as there is room: what it took, what it freed, and the net. With them the numbers of the open cycle, and
// how many have closed. Inner.
#[derive(Drop)]
pub struct Cycles<'a> {
    pub numbers: &'a mut [i64],
    pub tallied: Tallied,
}

impl Teller for Cycles<'_> {
    ghost use Rattle.tally.specs.Told.{cycles_told};

    ghost told = { cycles_told };

    ghost fits = { λ x step. Few step x.tallied.tally × (x.tallied.cycles ≤ step) };

    fn tell(&mut self, step: u32, turn: Turn, counts: &[u16]) {
        self.tallied = tally_event(self.tallied, counts, turn, self.numbers);
    }
}

// What a whole trace answers: what its replay does, and how many cycles have closed.
#[derive(Clone, Copy)]
pub struct Report {
    pub replay: Replay,
    pub cycles: usize,
}

// A whole trace on lent tables, replayed as `replay_trace` does: any bytes, any tables, any collector's record. In the place of the answers, the numbers of each cycle
// that closes are put into `numbers` in turn, as far as there is room: what it took, what it freed, and the net. Two wrong programs that the contract rules out: one
// that answers how many cycles have closed by the closed-cycle number, and one that puts a cycle that is still open.
pub fn report_trace(t: &mut LentTables, c: Collector, bytes: &[u8], numbers: &mut [i64]) -> Report
    ensures done { report_traced (contents t.old) c bytes.now numbers.old ≡ record { report = result; tables = contents t.new; numbers = numbers.new } }
    ensures same { SameTables t.old t.new }
{
    let mut told = Cycles {
        numbers,
        tallied: Tallied::default(),
    };
    let replay = trace_told(t, c, bytes, &mut told);
    Report {
        replay,
        cycles: told.tallied.cycles,
    }
}
