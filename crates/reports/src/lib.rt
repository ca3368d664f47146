// A trace that arrives in parts, on arrays that are longer than a pool's tables, with the numbers of each closed cycle (document 02, request 7). All of it is inner
// (decision 4 of docs/DECISIONS.md): the program is `report`.
//     Reporting      what is kept between two parts, beside the arrays
//     ReportText     what a part answers, and how long the text of its cycles is
//     report_text    a part, which begins where the one before left off, and the text of its cycles
#![tactic(auto)]

ghost use Rattle.tables.specs.Lent.{contents, SameTables};
ghost use Rattle.parts.specs.Begun.{whole_part, whole_work};
ghost use Rattle.reports.specs.Told.{told_work};
ghost use Rattle.reports.specs.Buffer.{HasRoom, Ready, ReportOf};

use cycles::{Tallied, Tally};
use parts::{Progress, part_told};
use tables::lent::LentTables;
use tally::Cycles;
use text::cycle::put_cycles;
use trace::Ending;

// What may come next and the pool, the numbers of the open cycle, and how many have closed.
#[derive(Clone, Copy)]
pub struct Reporting {
    pub progress: Progress,
    pub tally: Tally,
    pub cycles: u64,
}

// How the trace stands behind the part, the place of the first byte that is still needed, what is kept, and how long the text is.
#[derive(Clone, Copy)]
pub struct ReportText {
    pub stand: Option<Ending>,
    pub next: usize,
    pub reporting: Reporting,
    pub size: usize,
}

// A part of a trace, whose cycles' lines are put into `text`, from its start on. `numbers` is for the numbers of those that close now.
pub fn report_text(
    t: &mut LentTables,
    x: Reporting,
    bytes: &[u8],
    last: bool,
    numbers: &mut [i64],
    text: &mut [u8],
) -> ReportText
    requires ready { Ready x (contents t.old) }
    requires has_room { HasRoom bytes.now numbers.old text.old }
    ensures report { ReportOf
        (whole_part x.progress (contents t.old) last bytes.now)
        (told_work x.tally (whole_work x.progress (contents t.old) last bytes.now))
        x.cycles
        result
        (contents t.new)
        text.new }
    ensures same { SameTables t.old t.new }
{
    let mut told = Cycles {
        numbers,
        tallied: Tallied {
            tally: x.tally,
            cycles: 0,
        },
    };
    let part = part_told(t, x.progress, bytes, last, &mut told);
    let tallied = told.tallied;
    let size = put_cycles(text, x.cycles, &numbers[..tallied.cycles * 3]);
    ReportText {
        stand: part.stand,
        next: part.next,
        reporting: Reporting {
            progress: part.progress,
            tally: tallied.tally,
            // A length has no `From` into 64 bits.
            cycles: x.cycles + tallied.cycles as u64,
        },
        size,
    }
}
