// `report`: reads a trace from standard input to its end and prints a line for each closed cycle, and document 01's last line, in constant memory (document 02, request 7).
//     main       the arrays, and the parts of the trace, one for each read
//     Report     the pool's tables, room for the numbers of a part, and what is kept between two parts
// What is printed for the bytes that were read is `report_parts` of reports/specs/Printed.antt, a part for each piece: what `report_text` puts into the buffer, and behind
// the last part what `put_ending` does, as `lines` and `last_line` say. docs/DECISIONS.md says how far a theorem reaches here.
#![tactic(auto)]

use cycles::Tally;
use input::{Done, Parts, run_parts};
use parts::{Arrays, Progress, put_ending};
use reports::{Reporting, report_text};
use tables::lent::LentTables;
use trace::Ending;

#[derive(Drop)]
struct Report<'a> {
    tables: LentTables<'a>,
    numbers: &'a mut [i64],
    reporting: Reporting,
}

impl Parts for Report<'_> {
    ghost use Rattle.std.specs.Prelude.{◌≡◌, ◌+◌, length};
    ghost use Rattle.tables.specs.Lent.{contents};
    ghost use Rattle.parts.specs.Part.{moved_ending};
    ghost use Rattle.parts.specs.Begun.{whole_work, TakenSo};
    ghost use Rattle.parts.specs.Printed.{ending_printed};
    ghost use Rattle.parts.specs.Buffer.{PlaceFits};
    ghost use Rattle.reports.specs.Told.{told_work};
    ghost use Rattle.reports.specs.Printed.{cycles_printed};
    ghost use Rattle.reports.specs.Buffer.{Ready};

    type Ending = Ending;

    ghost lines = { λ x bytes last.
        let y = x.reporting in cycles_printed y.cycles (told_work y.tally (whole_work y.progress (contents x.tables) last bytes)).cycles };

    ghost takes = { λ x bytes last ending next y.
        let before = x.reporting in
        let after = y.reporting in
        let told = told_work before.tally (whole_work before.progress (contents x.tables) last bytes) in
        TakenSo before.progress (contents x.tables) bytes last ending next after.progress (contents y.tables)
        × (after.tally ≡ told.tally) × (after.cycles ≡ before.cycles + length told.cycles) };

    ghost last_line = { λ ending base. ending_printed (moved_ending base ending) };

    ghost ready = { λ x. Ready x.reporting (contents x.tables) × (length x.numbers.now ≡ 7022) };

    ghost room = { 266826 };

    ghost ends = { PlaceFits 18014398509481984 };

    fn part(&mut self, bytes: &[u8], last: bool, text: &mut [u8]) -> Done<Ending> {
        let done = report_text(
            &mut self.tables,
            self.reporting,
            bytes,
            last,
            self.numbers,
            text,
        );
        self.reporting = done.reporting;
        Done {
            size: done.size,
            ending: done.stand,
            next: done.next,
        }
    }

    // Said by each program, for `input`, which has the trait, stands on no crate of the pool.
    fn put_end(&self, text: &mut [u8], ending: Ending, base: usize) -> usize {
        put_ending(text, ending, base)
    }
}

// The room is for a part of 16384 bytes.
#[tactic(auto, using(parts::proofs::Turn::aside_set))]
fn main(rt: HostRuntime) {
    let mut arrays = Arrays::new();
    let mut report = Report {
        tables: arrays.lend(),
        numbers: &mut [0i64; 7022],
        reporting: Reporting {
            progress: Progress::FIRST,
            tally: Tally::default(),
            cycles: 0,
        },
    };
    run_parts(
        &rt,
        "report",
        &mut rt.stdin(),
        &mut [0u8; 266826],
        &mut report,
    );
}
