// The field reader: what stands at a place of a trace, by document 01's field rules. All of it is inner (decision 4 of docs/DECISIONS.md).
//     Stage, Reader      what may come next: the sizes, an event or the end, or nothing; and the last step number
//     Field, Read        what stands at a place, the place behind it, and what may come then
//     RefusedAt          why a trace is refused, and where
//     read_at            the field reader. It takes any bytes, any place and any state of the reader
//     event_size         where an event stands, for whoever reads events one after another
// Below these: payload_of, payload_for, is_misplaced, two_at, four_at, board_at, sizes_at, event_at, which read a field's parts; take_field and read_field, which read a field,
// and read_behind_end.
#![tactic(auto)]

ghost use Rattle.std.specs.Prelude.{◌≡◌, ◌+◌, ◌≤◌, ◌<◌, length, MatchOption};
ghost use Rattle.fields.specs.Field.{two_at, four_at, payload_of, payload_for, payload_at, board_at, sizes_at, event_at, misplaced, WholeAt, taken_or_not, field_at, behind_end, read_at, EventSized};

use rules::{Event, Refusal, Sizes};
use tables::place::in_range;

// The tags of the fields. They are numbers and no enum: `payload_of` and `event_at` of specs/Field.antt are over any byte, and C hands a tag as a byte.
const SIZES_TAG: u8 = 0x01;

const MAKE_TAG: u8 = 0x10;

const MOVE_TAG: u8 = 0x11;

const DROP_TAG: u8 = 0x12;

const LOAD_TAG: u8 = 0x13;

const STORE_TAG: u8 = 0x14;

const LOOK_TAG: u8 = 0x15;

const POST_TAG: u8 = 0x16;

const COLLECT_TAG: u8 = 0x20;

pub const END_TAG: u8 = 0x7F;

// What may come next in a trace.
#[derive(Clone, Copy)]
pub enum Stage {
    // The sizes: "first field not the sizes" is refused.
    First,
    // An event or the end.
    Events,
    // Nothing: "a byte after the end field" is refused.
    Ended,
}

// What the fields before say of the next one: what it may be, and the last step number, 0 where there was no event.
#[derive(Clone, Copy)]
pub struct Reader {
    pub stage: Stage,
    pub step: u32,
}

impl Reader {
    // Where a trace begins.
    pub const FIRST: Reader = Reader {
        stage: Stage::First,
        step: 0,
    };

    // Behind the event of this step number, or behind the sizes with 0.
    pub fn behind(step: u32) -> Reader
        ensures { result ≡ record { stage = Stage.Events; step = step } }
    {
        Reader {
            stage: Stage::Events,
            step,
        }
    }
}

// What stands at a place of a trace.
#[derive(Clone, Copy)]
pub enum Field {
    Sizes(Sizes),
    // A step number and its event.
    Event(u32, Event),
    End,
    // Nothing stands there, and nothing should: the trace is whole. A case and no `Option`: `behind_end` and `is_taken` of specs/ name it among the fields.
    Nothing,
}

// What stands at a place, the place behind it, and what may come there. Where nothing stands, both are as they were.
#[derive(Clone, Copy)]
pub struct Read {
    pub field: Field,
    pub next: usize,
    pub reader: Reader,
}

// Why a trace is refused, and where: "the offset of the field's tag or where it would stand (11: of the extra byte)".
#[derive(Clone, Copy)]
pub struct RefusedAt {
    pub why: Refusal,
    pub place: usize,
}

// How long the payload of a tag is, of the sizes without a board, if there is such a tag.
#[tactic(auto, unfolding(crate::specs::Field::payload_of))]
fn payload_of(tag: u8) -> Option<usize>
    ensures { MatchOption result (payload_of tag ≡ 0) (λ n. (n ≡ payload_of tag) × (0 < n)) }
{
    match tag {
        SIZES_TAG | LOAD_TAG | STORE_TAG => Some(8),
        MAKE_TAG | DROP_TAG => Some(6),
        MOVE_TAG | LOOK_TAG | POST_TAG => Some(7),
        COLLECT_TAG | END_TAG => Some(4),
        _ => None,
    }
}

// How long it is in a field of this length, if the length is right at all: the sizes may have a board.
#[tactic(auto, unfolding(crate::specs::Field::payload_of, crate::specs::Field::payload_for))]
fn payload_for(tag: u8, long: u16) -> Option<usize>
    ensures { MatchOption result (payload_of tag ≡ 0) (λ n. (n ≡ payload_for tag long) × (0 < payload_of tag)) }
{
    if tag == SIZES_TAG && long == 10 {
        Some(10)
    } else {
        payload_of(tag)
    }
}

// "first field not the sizes, or sizes a second time"
#[tactic(auto, unfolding(crate::specs::Field::misplaced))]
fn is_misplaced(stage: Stage, tag: u8) -> bool
    ensures { result ≡ misplaced stage tag }
{
    match stage {
        Stage::First => tag != SIZES_TAG,
        Stage::Events => tag == SIZES_TAG,
        Stage::Ended => true,
    }
}

// "all numbers most significant byte first"
fn two_at(bytes: &[u8], i: usize) -> u16
    requires { i + 1 < length bytes.now }
    ensures { result ≡ two_at bytes.now i }
{
    u16::from_be_bytes([bytes[i], bytes[i + 1]])
}

pub fn four_at(bytes: &[u8], i: usize) -> u32
    requires { i + 3 < length bytes.now }
    ensures { result ≡ four_at bytes.now i }
{
    u32::from_be_bytes([bytes[i], bytes[i + 1], bytes[i + 2], bytes[i + 3]])
}

// The event of a tag, whose bytes behind the step number stand at i.
#[tactic(auto, unfolding(crate::specs::Field::payload_of, crate::specs::Field::event_at))]
pub fn event_at(tag: u8, bytes: &[u8], i: usize) -> Event
    requires { i + payload_of tag ≤ length bytes.now + 4 }
    ensures { result ≡ event_at tag bytes.now i }
{
    match tag {
        MAKE_TAG => Event::Make {
            w: bytes[i],
            r: bytes[i + 1],
        },
        MOVE_TAG => Event::Move {
            w: bytes[i],
            r: bytes[i + 1],
            q: bytes[i + 2],
        },
        DROP_TAG => Event::Drop {
            w: bytes[i],
            r: bytes[i + 1],
        },
        LOAD_TAG => Event::Load {
            w: bytes[i],
            r: bytes[i + 1],
            q: bytes[i + 2],
            f: bytes[i + 3],
        },
        STORE_TAG => Event::Store {
            w: bytes[i],
            q: bytes[i + 1],
            f: bytes[i + 2],
            r: bytes[i + 3],
        },
        LOOK_TAG => Event::Look {
            w: bytes[i],
            r: bytes[i + 1],
            e: bytes[i + 2],
        },
        POST_TAG => Event::Post {
            w: bytes[i],
            e: bytes[i + 1],
            r: bytes[i + 2],
        },
        _ => Event::Collect,
    }
}

// "The sizes field with length 10 carries B at its end; length 8 means B = 0." (document 02, request 5)
fn board_at(bytes: &[u8], i: usize, payload: usize) -> u16
    requires { i + payload ≤ length bytes.now }
    ensures { result ≡ board_at bytes.now i payload }
{
    if payload == 10 {
        two_at(bytes, i + 8)
    } else {
        0
    }
}

fn sizes_at(bytes: &[u8], i: usize, payload: usize) -> Sizes
    requires { (8 ≤ payload) × (i + payload ≤ length bytes.now) }
    ensures { result ≡ sizes_at bytes.now i payload }
{
    Sizes {
        n: two_at(bytes, i),
        k: two_at(bytes, i + 2),
        w: two_at(bytes, i + 4),
        r: two_at(bytes, i + 6),
        b: board_at(bytes, i, payload),
    }
}

// "then 1 for sizes, 10 for an event, 12 for the end": a field whose payload is whole.
#[tactic(auto, using(crate::proofs::Tags::payload_least, crate::proofs::Tags::sizes_payload, crate::proofs::Tags::other_payload), unfolding(crate::specs::Field::taken_or_not, crate::specs::Field::decide, crate::specs::Field::taken))]
fn take_field(bytes: &[u8], place: usize, payload: usize, reader: Reader) -> Result<Read, Refusal>
    requires { WholeAt bytes.now place × (payload ≡ payload_at bytes.now place) }
    ensures { result ≡ taken_or_not bytes.now place reader }
{
    let tag = bytes[place];
    let i = place + 3;
    let next = i + payload;
    if tag == SIZES_TAG {
        let s = sizes_at(bytes, i, payload);
        if !in_range(s) {
            return Err(Refusal::WrongSize);
        }
        return Ok(Read {
            field: Field::Sizes(s),
            next,
            reader: Reader::behind(0),
        });
    }
    let step = four_at(bytes, i);
    if tag == END_TAG {
        if step != reader.step {
            return Err(Refusal::WrongCount);
        }
        return Ok(Read {
            field: Field::End,
            next,
            reader: Reader {
                stage: Stage::Ended,
                step,
            },
        });
    }
    if u64::from(step) != u64::from(reader.step) + 1 {
        return Err(Refusal::WrongStep);
    }
    Ok(Read {
        field: Field::Event(step, event_at(tag, bytes, i + 4)),
        next,
        reader: Reader::behind(step),
    })
}

// "Order for a field: fewer than three bytes left 9; 7; 8; payload not whole 9; then .."
#[tactic(auto, unfolding(crate::specs::Field::field_at, crate::specs::Field::refusals, crate::specs::Field::decide, crate::specs::Field::taken_or_not))]
fn read_field(bytes: &[u8], place: usize, reader: Reader) -> Result<Read, Refusal>
    ensures { result ≡ field_at bytes.now place reader }
{
    let left = bytes.len().saturating_sub(place);
    if left < 3 {
        return Err(Refusal::StopsShort);
    }
    let tag = bytes[place];
    let long = two_at(bytes, place + 1);
    let Some(payload) = payload_for(tag, long) else {
        return Err(Refusal::WrongTag);
    };
    if is_misplaced(reader.stage, tag) {
        return Err(Refusal::WrongTag);
    }
    if usize::from(long) != payload {
        return Err(Refusal::WrongLength);
    }
    if left < 3 + payload {
        return Err(Refusal::StopsShort);
    }
    take_field(bytes, place, payload, reader)
}

// "a byte after the end field"
#[tactic(auto, unfolding(crate::specs::Field::behind_end))]
fn read_behind_end(bytes: &[u8], place: usize, reader: Reader) -> Result<Read, Refusal>
    ensures { result ≡ behind_end bytes.now place reader }
{
    if place < bytes.len() {
        return Err(Refusal::ExtraByte);
    }
    Ok(Read {
        field: Field::Nothing,
        next: place,
        reader,
    })
}

// What stands at a place of a trace. Two wrong programs that the contract rules out: one that refuses every trace, and one that forgets the last step number
// behind the first event.
#[tactic(auto, unfolding(crate::specs::Field::read_at))]
pub fn read_at(bytes: &[u8], place: usize, reader: Reader) -> Result<Read, RefusedAt>
    ensures { result ≡ read_at bytes.now place reader }
{
    let read = match reader.stage {
        Stage::First | Stage::Events => read_field(bytes, place, reader),
        Stage::Ended => read_behind_end(bytes, place, reader),
    };
    read.map_err(|why| RefusedAt { why, place })
}

// How long the event field is that stands at a place behind a step, if one does. It has tests of its own: `read_at` answers a struct through memory, which made a loop
// over the events of a trace slower (decision 39 of docs/DECISIONS.md).
pub fn event_size(bytes: &[u8], place: usize, step: u32) -> Option<usize>
    ensures { EventSized bytes.now place step result }
{
    let left = bytes.len().checked_sub(place)?;
    if left < 7 {
        return None;
    }
    let tag = bytes[place];
    if tag == SIZES_TAG || tag == END_TAG {
        return None;
    }
    let payload = payload_of(tag)?;
    if usize::from(two_at(bytes, place + 1)) != payload {
        return None;
    }
    if u64::from(four_at(bytes, place + 3)) != u64::from(step) + 1 {
        return None;
    }
    // Last, for the last test decides the size without a branch: so the next place waits for a length that is known, and not for the bytes of the number.
    if left < 3 + payload {
        return None;
    }
    Some(3 + payload)
}
