// A trace that arrives in parts, replayed on arrays that are longer than a pool's tables. All of it is inner (decision 4 of docs/DECISIONS.md): the program is
// `replay`, and `report` takes its parts with `part_told` as `replay` does.
//     Arrays         the arrays, and the tables that they are lent as
//     Progress       what is kept between two parts, beside the arrays
//     Part           what a part answers
//     PartText       what a part answers, and how long the text of its lines is
//     part_told      a part, which begins where the one before left off; each of its events is told
//     part_text      a part, and the text of its lines
//     put_ending     the text of the last line
//     run_front, run_lent      the events of a part, on the arrays and on a pool's tables
//     begin_part, end_part     what comes before them, and how the trace stands behind them
//     begin_first    what comes first in a trace
//     is_small       the sizes that the program takes
#![tactic(auto)]

ghost use Rattle.std.specs.Prelude.{◌≡◌, true, ◌≤◌, length, take, []};
ghost use Rattle.tables.specs.Bits.{word_count};
ghost use Rattle.tables.specs.Tables.{Tables, lent};
ghost use Rattle.tables.specs.Lent.{contents, SameTables};
ghost use Rattle.tables.specs.Known.{Known};
ghost use Rattle.fresh.specs.Free.{free_in};
ghost use Rattle.text.specs.Text.{StartsWith};
ghost use Rattle.trace.specs.Stretch.{ran_on};
ghost use Rattle.trace.specs.Stand.{stand_behind};
ghost use Rattle.trace.specs.Told.{told_on};
ghost use Rattle.parts.specs.Part.{moved_ending};
ghost use Rattle.parts.specs.Work.{work_told};
ghost use Rattle.parts.specs.Arrays.{is_small, front, laid, aside, Long, Within, Runs, Set, part_of, Takes};
ghost use Rattle.parts.specs.Begun.{SomeArrays, BegunAs, whole_part, whole_work};
ghost use Rattle.parts.specs.Printed.{ending_printed};
ghost use Rattle.parts.specs.Buffer.{HasRoom, TextOf, PlaceFits};

use fields::{Field, Reader, RefusedAt, Stage, read_at};
use reply::refusal_number;
use rules::{Collector, Refusal, Sizes};
use std::ops::ControlFlow;
use tables::lent::LentTables;
use tables::place::{last_place, link_count, word_count};
use text::{put_end, put_lines, put_refused};
use trace::teller::{Answers, Teller};
use trace::{Ending, Ran, run_events, stand_behind};

// The arrays in which a program has its pool. They are for the largest sizes that it takes.
#[derive(Drop)]
pub struct Arrays {
    used: [u64; 1],
    counts: [u16; 64],
    held: [u64; 1],
    candidates: [u64; 1],
    makers: [u16; 64],
    values: [u16; 264],
    changed: [u64; 5],
    registers: [u16; 33],
    snoops: [u16; 4],
    logs: [u16; 2112],
    history: [u16; 528],
    lengths: [u16; 5],
}

impl Arrays {
    // Before the first field.
    #[tactic(auto, unfolding(crate::specs::Arrays::aside))]
    pub fn new() -> Arrays
        ensures { laid result ≡ aside }
    {
        Arrays {
            used: [0; 1],
            counts: [0; 64],
            held: [0; 1],
            candidates: [0; 1],
            makers: [0; 64],
            values: [0; 264],
            changed: [0; 5],
            registers: [0; 33],
            snoops: [0; 4],
            logs: [0; 2112],
            history: [0; 528],
            lengths: [0; 5],
        }
    }

    // Each whole array as a table.
    pub fn lend(&mut self) -> LentTables<'_>
        ensures { contents result ≡ laid self.old }
    {
        LentTables {
            used: self.used.as_mut_slice(),
            counts: self.counts.as_mut_slice(),
            held: self.held.as_mut_slice(),
            candidates: self.candidates.as_mut_slice(),
            makers: self.makers.as_mut_slice(),
            values: self.values.as_mut_slice(),
            changed: self.changed.as_mut_slice(),
            registers: self.registers.as_mut_slice(),
            snoops: self.snoops.as_mut_slice(),
            logs: self.logs.as_mut_slice(),
            history: self.history.as_mut_slice(),
            lengths: self.lengths.as_mut_slice(),
        }
    }
}

// What may come next, the pool's sizes and the collector's record. The last two mean nothing before the first field: the reader's stage says that already, and an `Option` would
// say it twice.
#[derive(Clone, Copy)]
pub struct Progress {
    pub reader: Reader,
    pub sizes: Sizes,
    pub collector: Collector,
}

impl Progress {
    // Before the first field. A const can't call `default()`, so that the zeros are spelled out.
    pub const FIRST: Progress = Progress {
        reader: Reader::FIRST,
        sizes: Sizes {
            n: 0,
            k: 0,
            w: 0,
            r: 0,
            b: 0,
        },
        collector: Collector {
            phase: 0,
            position: 0,
            closed: 0,
        },
    };
}

// How the trace stands behind the part: it has ended so, or more has to be read; the place of the first byte that is still needed, how many events the part had, and
// what is kept.
#[derive(Clone, Copy)]
pub struct Part {
    pub stand: Option<Ending>,
    pub next: usize,
    pub events: usize,
    pub progress: Progress,
}

impl Part {
    // Nothing of it is taken, before there is a pool.
    fn untaken(x: Progress, stand: Option<Ending>) -> Part
        ensures { result ≡ record { stand = stand; next = 0; events = 0; progress = x } }
    {
        Part {
            stand,
            next: 0,
            events: 0,
            progress: x,
        }
    }
}

// A part, and how long the text of its lines is.
#[derive(Clone, Copy)]
pub struct PartText {
    pub part: Part,
    pub size: usize,
}

// "it takes N up to 64, K up to 4, W up to 4, R up to 8, and answers 1 beyond"; "`replay` takes B up to 8" (document 02, request 5)
#[tactic(auto, unfolding(crate::specs::Arrays::is_small))]
fn is_small(s: Sizes) -> bool
    ensures { result ≡ is_small s }
{
    (s.n <= 64) & (s.k <= 4) & (s.w <= 4) & (s.r <= 8) & (s.b <= 8)
}

// The events that stand one after another from a place on, on tables of these sizes' lengths. The teller is told of each. They are taken one by one: with a struct of
// beginnings of another struct's tables the proof doesn't close, for it is not known then what was written there.
fn run_lent<T: Teller>(
    s: Sizes,
    used: &mut [u64],
    counts: &mut [u16],
    held: &mut [u64],
    candidates: &mut [u64],
    makers: &mut [u16],
    values: &mut [u16],
    changed: &mut [u64],
    registers: &mut [u16],
    snoops: &mut [u16],
    logs: &mut [u16],
    history: &mut [u16],
    lengths: &mut [u16],
    c: Collector,
    bytes: &[u8],
    place: usize,
    step: u32,
    teller: &mut T,
) -> Ran
    requires known { Known s (lent used.old counts.old held.old candidates.old makers.old values.old changed.old registers.old snoops.old logs.old history.old lengths.old) c }
    requires fits { T.fits teller.old step }
    ensures ran { ran_on s (lent used.old counts.old held.old candidates.old makers.old values.old changed.old registers.old snoops.old logs.old history.old lengths.old) c bytes.now place step []
        ≡ record { ran = result; tables = lent used.new counts.new held.new candidates.new makers.new values.new changed.new registers.new snoops.new logs.new history.new lengths.new; answers = [] } }
    ensures told { teller.new ≡ told_on T.told s (lent used.old counts.old held.old candidates.old makers.old values.old changed.old registers.old snoops.old logs.old history.old lengths.old) c bytes.now place step teller.old }
    ensures fits { T.fits teller.new result.step }
{
    let mut t = LentTables {
        used,
        counts,
        held,
        candidates,
        makers,
        values,
        changed,
        registers,
        snoops,
        logs,
        history,
        lengths,
    };
    run_events(s, &mut t, c, bytes, place, step, teller)
}

// The events that stand one after another from a place on, on the pool at the arrays' beginnings. The teller is told of each.
fn run_front<T: Teller>(
    s: Sizes,
    t: &mut LentTables,
    c: Collector,
    bytes: &[u8],
    place: usize,
    step: u32,
    teller: &mut T,
) -> Ran
    requires long { Long (contents t.old) }
    requires within { Within s (contents t.old) }
    requires known { Known s (front s (contents t.old)) c }
    requires fits { T.fits teller.old step }
    ensures ran { Runs s (ran_on s (front s (contents t.old)) c bytes.now place step []) result (contents t.new) [] }
    ensures told { teller.new ≡ told_on T.told s (front s (contents t.old)) c bytes.now place step teller.old }
    ensures fits { T.fits teller.new result.step }
    ensures same { SameTables t.old t.new }
{
    let records = usize::from(s.n);
    let words = word_count(s.n);
    let links = link_count(s);
    let room = usize::from(links) * 2;
    let workers = usize::from(s.w);
    run_lent(
        s,
        &mut t.used[..words],
        &mut t.counts[..records],
        &mut t.held[..words],
        &mut t.candidates[..words],
        &mut t.makers[..records],
        &mut t.values[..usize::from(links)],
        &mut t.changed[..word_count(links)],
        &mut t.registers[..last_place(s) + 1],
        &mut t.snoops[..workers],
        &mut t.logs[..workers * room],
        &mut t.history[..room],
        &mut t.lengths[..workers + 1],
        c,
        bytes,
        place,
        step,
        teller,
    )
}

// What comes first in a trace: the sizes, which make the pool, or a refusal, or more has to be read.
fn begin_first(x: Progress, bytes: &[u8], last: bool) -> ControlFlow<Part, (Progress, usize)>
    requires { x.reader.stage ≡ Stage.First }
    ensures { (t : Tables) → Set x t → BegunAs x t last bytes.now result }
{
    if !last & (bytes.len() < 13) {
        return ControlFlow::Break(Part::untaken(x, None));
    }
    let refused = match read_at(bytes, 0, x.reader) {
        Err(e) => e,
        Ok(first) => match first.field {
            Field::Sizes(s) if is_small(s) => {
                let fresh = Progress {
                    reader: first.reader,
                    sizes: s,
                    collector: Collector::default(),
                };
                return ControlFlow::Continue((fresh, first.next));
            }
            Field::Sizes(_) => RefusedAt {
                why: Refusal::WrongSize,
                place: 0,
            },
            _ => RefusedAt {
                why: Refusal::WrongTag,
                place: 0,
            },
        },
    };
    ControlFlow::Break(Part::untaken(x, Some(Err(refused))))
}

// How the trace stands behind the events of a part, from a place on. `x` is what is kept then, and `events` is how many there were.
pub fn end_part(
    used: &[u64],
    x: Progress,
    bytes: &[u8],
    place: usize,
    events: usize,
    last: bool,
) -> Part
    requires sizes_value { is_small x.sizes ≡ true }
    requires used_len { length used.now ≡ 1 }
    ensures { result ≡ part_of x (stand_behind last (free_in x.sizes.n (take (word_count x.sizes.n) used.now)) x.collector.closed bytes.now place x.reader) events }
{
    let stood = stand_behind(
        x.sizes.n,
        &used[..word_count(x.sizes.n)],
        x.collector.closed,
        bytes,
        place,
        x.reader,
        last,
    );
    Part {
        stand: stood.stand,
        next: stood.next,
        events,
        progress: Progress {
            reader: stood.reader,
            ..x
        },
    }
}

// How a part begins, which begins where the one before left off: with the events from a place on, and what is kept of the pool that they are done on; or no event is
// done, and the part is all that there is to answer.
pub fn begin_part(
    used: &[u64],
    x: Progress,
    bytes: &[u8],
    last: bool,
) -> ControlFlow<Part, (Progress, usize)>
    requires { SomeArrays x used.now }
    ensures { (t : Tables) → t.used ≡ used.now → Set x t → BegunAs x t last bytes.now result }
{
    match x.reader.stage {
        Stage::First => begin_first(x, bytes, last),
        Stage::Events => ControlFlow::Continue((x, 0)),
        Stage::Ended => ControlFlow::Break(end_part(used, x, bytes, 0, 0, last)),
    }
}

// A part of a trace, whose events the teller is told of. `Set` is a clause, for it is of tables behind a `&mut` (tables/src/lent.rt).
pub fn part_told<T: Teller>(
    t: &mut LentTables,
    x: Progress,
    bytes: &[u8],
    last: bool,
    teller: &mut T,
) -> Part
    requires set { Set x (contents t.old) }
    requires fits { T.fits teller.old x.reader.step }
    ensures takes { Takes (whole_part x (contents t.old) last bytes.now) x [] result (contents t.new) [] }
    ensures told { teller.new ≡ work_told T.told (whole_work x (contents t.old) last bytes.now) teller.old }
    ensures fits { T.fits teller.new result.progress.reader.step }
    ensures same { SameTables t.old t.new }
{
    match begin_part(t.to_read().used, x, bytes, last) {
        ControlFlow::Break(part) => part,
        ControlFlow::Continue((y, place)) => {
            let ran = run_front(y.sizes, t, y.collector, bytes, place, x.reader.step, teller);
            let behind = Progress {
                reader: Reader::behind(ran.step),
                sizes: y.sizes,
                collector: ran.collector,
            };
            end_part(t.to_read().used, behind, bytes, ran.next, ran.events, last)
        }
    }
}

// A part of a trace, whose lines are put into `text`, from its start on. `answers` is for the answers of its events.
pub fn part_text(
    t: &mut LentTables,
    x: Progress,
    bytes: &[u8],
    last: bool,
    answers: &mut [u16],
    text: &mut [u8],
) -> PartText
    requires set { Set x (contents t.old) }
    requires has_room { HasRoom bytes.now answers.old text.old }
    ensures text { TextOf (whole_part x (contents t.old) last bytes.now) result.part result.size (contents t.new) text.new }
    ensures same { SameTables t.old t.new }
{
    let mut teller = Answers { answers, events: 0 };
    let part = part_told(t, x, bytes, last, &mut teller);
    let filled = part.events * 2;
    let size = put_lines(text, x.reader.step, &answers[..filled]);
    PartText { part, size }
}

// The last line of a replay, put into `text`, from its start on; answers how long it is. The part begins `base` bytes behind the trace's beginning.
#[tactic(auto, unfolding(crate::specs::Part::moved_ending, crate::specs::Printed::ending_printed))]
pub fn put_ending(text: &mut [u8], ending: Ending, base: usize) -> usize
    requires in_bounds { 64 ≤ length text.old }
    requires place_fits { PlaceFits base ending }
    ensures { StartsWith text.new result (ending_printed (moved_ending base ending)) }
{
    match ending {
        Ok(w) => put_end(text, w.free, w.closed),
        // A place has no `From` into 64 bits.
        Err(e) => put_refused(text, refusal_number(e.why), (base + e.place) as u64),
    }
}
