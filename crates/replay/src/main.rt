// `replay`: reads a trace from standard input to its end and prints document 01's lines, in constant memory.
//     main       the arrays, and the parts of the trace, one for each read
//     Replay     the pool's tables, room for the answers of a part, and what is kept between two parts
// What is printed for the bytes that were read is `printed` of parts/specs/Printed.antt, a part for each piece: what `part_text` puts into the buffer, and behind the
// last part what `put_ending` does, as `lines` and `last_line` say. docs/DECISIONS.md says how far a theorem reaches here.
#![tactic(auto)]

use input::{Done, Parts, run_parts};
use parts::{Arrays, Progress, part_text, put_ending};
use tables::lent::LentTables;
use trace::Ending;

#[derive(Drop)]
struct Replay<'a> {
    tables: LentTables<'a>,
    answers: &'a mut [u16],
    progress: Progress,
}

impl Parts for Replay<'_> {
    ghost use Rattle.std.specs.Prelude.{◌≡◌, length};
    ghost use Rattle.tables.specs.Lent.{contents};
    ghost use Rattle.parts.specs.Part.{moved_ending};
    ghost use Rattle.parts.specs.Arrays.{Set};
    ghost use Rattle.parts.specs.Begun.{whole_part, TakenSo};
    ghost use Rattle.parts.specs.Printed.{lines_printed, ending_printed};
    ghost use Rattle.parts.specs.Buffer.{PlaceFits};

    type Ending = Ending;

    ghost lines = { λ x bytes last. lines_printed (whole_part x.progress (contents x.tables) last bytes).lines };

    ghost takes = { λ x bytes last ending next y. TakenSo x.progress (contents x.tables) bytes last ending next y.progress (contents y.tables) };

    ghost last_line = { λ ending base. ending_printed (moved_ending base ending) };

    ghost ready = { λ x. Set x.progress (contents x.tables) × (length x.answers.now ≡ 4684) };

    ghost room = { 56272 };

    ghost ends = { PlaceFits 18014398509481984 };

    #[tactic(auto, using(parts::proofs::Turn::part_waiting, parts::proofs::Turn::part_fits))]
    fn part(&mut self, bytes: &[u8], last: bool, text: &mut [u8]) -> Done<Ending> {
        let done = part_text(
            &mut self.tables,
            self.progress,
            bytes,
            last,
            self.answers,
            text,
        );
        self.progress = done.part.progress;
        Done {
            size: done.size,
            ending: done.part.stand,
            next: done.part.next,
        }
    }

    // Said by each program, for `input`, which has the trait, stands on no crate of the pool.
    fn put_end(&self, text: &mut [u8], ending: Ending, base: usize) -> usize {
        put_ending(text, ending, base)
    }
}

// The room is for a part of 16384 bytes.
#[tactic(auto, using(parts::proofs::Turn::aside_set))]
fn main(rt: HostRuntime) {
    let mut arrays = Arrays::new();
    let mut replay = Replay {
        tables: arrays.lend(),
        answers: &mut [0u16; 4684],
        progress: Progress::FIRST,
    };
    run_parts(
        &rt,
        "replay",
        &mut rt.stdin(),
        &mut [0u8; 56272],
        &mut replay,
    );
}
