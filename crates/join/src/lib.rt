// Parts of a trace, joined: "Every worker, and the collector, now records its own trace; we want them joined, ordered by step number as a number" (request 3 of
// document 02).
//     join       the call. It takes any bytes, any table of lengths and any output
// Inner: end_to_end, which asks whether the parts lie in the slice; number_at, expect_at, what is expected at a place of a part; open_part, which reads the sizes field of
// a part; lay_out, take_next, all_ended, measure, which merge without writing; put_end, write_joined, which merge and write; check_end, check_events, check_part, check,
// refusal, which read part by part and say why parts are refused that do not merge.
#![tactic(auto)]

ghost use Rattle.std.specs.Prelude.{ℕ, ◌≡◌, true, ◌+◌, ◌≤◌, ◌<◌, length, unwrap_or, option_copied};
ghost use Rattle.text.specs.Text.{Written};
ghost use Rattle.join.specs.Part.{number_at, expected, opening, events_told, part_told, parts_told};
ghost use Rattle.join.specs.Joined.{end_to_end, end_field, joined_on};
ghost use Rattle.join.specs.Merge.{seen, seen_part, seen_parts, end_seen, refused_for, cursor_at, LaidOut, Opened, Within, TakesNext, AllEnded, Measured, Ready, WrittenOut};

use fields::{END_TAG, Field, Reader, RefusedAt, event_size, four_at, read_at};
use rules::{Refusal, Sizes};
use text::put_bytes;

// What a part begins with: its sizes, and the place behind their field.
#[derive(Clone, Copy)]
pub struct Opening {
    pub sizes: Sizes,
    pub next: usize,
}

// Parts that lie end to end, and how long each is.
#[derive(Clone, Copy)]
struct Lain<'a> {
    parts: &'a [u8],
    lengths: &'a [u64],
    ghost lent: { end_to_end parts.now lengths.now ≡ true },
}

// How far a part is taken: the place of its next field, where the part ends, and how many events were taken of it.
#[derive(Clone, Copy, Default)]
pub struct Cursor {
    pub place: usize,
    pub end: usize,
    pub count: u32,
}

// "One to nine parts are lent end to end in one slice, with a table of their lengths". What is left of the slice falls, so that no sum wraps.
#[tactic(auto, using(crate::proofs::Lengths::sum_next, crate::proofs::Lengths::none_lent, crate::proofs::Lengths::too_many), unfolding(crate::specs::Joined::sum))]
fn end_to_end(parts: &[u8], lengths: &[u64]) -> bool
    ensures { result ≡ end_to_end parts.now lengths.now }
{
    if !(1..=9).contains(&lengths.len()) {
        return false;
    }
    // A length has no `From` to and from 64 bits, here as below; each fits.
    let mut left = parts.len() as u64;
    for length in lengths {
        let Some(rest) = left.checked_sub(*length) else {
            return false;
        };
        left = rest;
    }
    left == 0
}

// The number that a field begins with, if its bytes are there.
#[tactic(auto, unfolding(crate::specs::Part::number_at))]
fn number_at(bytes: &[u8], place: usize) -> Option<u32>
    ensures { unwrap_or result 0 ≡ number_at bytes.now place }
{
    if bytes.len().saturating_sub(place) < 7 {
        return None;
    }
    Some(four_at(bytes, place + 3))
}

// What document 01's reader is given as the last step number: "10 now means not above the part's previous number .. and 12 a wrong count of its events".
#[tactic(auto, unfolding(crate::specs::Part::expected))]
fn expect_at(bytes: &[u8], place: usize, last: u32, events: u32) -> u32
    ensures { result ≡ expected bytes.now place last events }
{
    if place < bytes.len() && bytes[place] == END_TAG {
        return events;
    }
    match number_at(bytes, place) {
        Some(number) if last < number => number - 1,
        _ => last,
    }
}

// The sizes field that a part begins with.
#[tactic(auto, unfolding(crate::specs::Part::opening))]
fn open_part(bytes: &[u8], start: usize) -> Result<Opening, RefusedAt>
    ensures { result ≡ opening bytes.now start }
{
    let read = read_at(bytes, start, Reader::FIRST)?;
    match read.field {
        Field::Sizes(sizes) => Ok(Opening {
            sizes,
            next: read.next,
        }),
        Field::Event(_, _) | Field::End | Field::Nothing => Err(RefusedAt {
            why: Refusal::StopsShort,
            place: start,
        }),
    }
}

// What stands behind the events of a part: its end and no byte more, or what is refused.
#[tactic(auto, unfolding(crate::specs::Merge::end_seen))]
fn check_end(bytes: &[u8], place: usize, step: u32) -> Result<(), RefusedAt>
    ensures { result ≡ end_seen bytes.now place step }
{
    let read = read_at(bytes, place, Reader::behind(step))?;
    match read.field {
        Field::End => {
            if read.next < bytes.len() {
                return Err(RefusedAt {
                    why: Refusal::ExtraByte,
                    place: read.next,
                });
            }
            Ok(())
        }
        Field::Sizes(_) | Field::Event(_, _) | Field::Nothing => Err(RefusedAt {
            why: Refusal::StopsShort,
            place,
        }),
    }
}

// The events of a part, from behind its sizes field.
#[tactic(auto, using(crate::proofs::Reading::rises, crate::proofs::Reading::told_end))]
fn check_events(bytes: &[u8], start: usize) -> Result<(), RefusedAt>
    requires { (0 < start) × (start ≤ length bytes.now) }
    ensures { result ≡ seen (events_told (length bytes.now) bytes.now start 0 0) }
{
    let mut place = start;
    let mut events = 0;
    let mut step = expect_at(bytes, place, 0, events);
    while let Some(size) = event_size(bytes, place, step) {
        place += size;
        events += 1;
        step = expect_at(bytes, place, step + 1, events);
    }
    check_end(bytes, place, step)
}

// A part that starts at a place and ends with the bytes: whether its sizes are those of the first part.
fn check_part(bytes: &[u8], start: usize, first: Sizes) -> Result<bool, RefusedAt>
    ensures { result ≡ seen_part first (part_told bytes.now start) }
{
    let opening = open_part(bytes, start)?;
    check_events(bytes, opening.next)?;
    Ok(first == opening.sizes)
}

// "part by part 01's field refusals in 01's order": whether the sizes of all are those of the first part.
fn check(lain: Lain, first: Sizes) -> Result<bool, RefusedAt>
    ensures { result ≡ seen_parts first true (parts_told lain.entry.parts.now 0 lain.entry.lengths.now) }
{
    let mut start = 0;
    let mut same = true;
    for length in lain.lengths {
        let end = start + *length as usize;
        same &= check_part(&lain.parts[..end], start, first)?;
        start = end;
    }
    Ok(same)
}

// Why parts are refused that do not merge: "15 if two parts differ in sizes; 10 if the joined numbers aren't 1 to n".
fn refusal(lain: Lain, first: Sizes) -> RefusedAt
    ensures { result ≡ refused_for (seen_parts first true (parts_told lain.entry.parts.now 0 lain.entry.lengths.now)) }
{
    match check(lain, first) {
        Err(refused) => refused,
        Ok(true) => RefusedAt {
            why: Refusal::WrongStep,
            place: 0,
        },
        Ok(false) => RefusedAt {
            why: Refusal::SizesDiffer,
            place: 0,
        },
    }
}

// Where each part ends, and the place behind its sizes field, if each has one of the first one's sizes. There is no heap: of nine cursors as many are used as there are
// parts. An `ArrayVec` of them is no plainer: it is no `Copy`, its `clone` answers a `Result`, and the merge runs twice from these cursors. With
// `cursors.iter_mut().zip(lengths)` the proof does not close, for nothing is known of the cursors behind such a loop.
#[tactic(auto, using(crate::proofs::Lengths::part_end, crate::proofs::Lengths::all_lent, crate::proofs::Laid::equal_is, crate::proofs::Laid::laid_other))]
fn lay_out(lain: Lain, first: Sizes) -> Option<[Cursor; 9]>
    ensures { LaidOut first lain.entry.parts.now lain.entry.lengths.now result }
{
    let mut cursors = [Cursor::default(); 9];
    let mut start = 0;
    for (i, length) in lain.lengths.iter().enumerate() {
        let end = start + *length as usize;
        let opening = open_part(&lain.parts[..end], start).ok()?;
        if first != opening.sizes {
            return None;
        }
        cursors[i] = Cursor {
            place: opening.next,
            end,
            count: 0,
        };
        start = end;
    }
    Some(cursors)
}

// The event field that follows a step is taken, from the part where it comes next. With `iter_mut().find_map(..)` in the place of the loop the proof does not close: neither
// does that of the closure's call, nor is anything known of the cursors behind it.
fn take_next<'a>(parts: &'a [u8], cursors: &mut [Cursor], step: u32) -> Option<&'a [u8]>
    requires { Within parts.now cursors.old step }
    ensures { TakesNext parts.now cursors.old step (option_copied result) cursors.new }
{
    for cursor in cursors.iter_mut() {
        if let Some(size) = event_size(&parts[..cursor.end], cursor.place, step) {
            let field = &parts[cursor.place..cursor.place + size];
            cursor.place += size;
            cursor.count += 1;
            return Some(field);
        }
    }
    None
}

// Every part has come to its end.
#[tactic(auto, unfolding(crate::specs::Merge::ends_with))]
fn all_ended(parts: &[u8], cursors: &[Cursor]) -> bool
    requires { (i : ℕ) → i < length cursors.now → (cursor_at cursors.now i).end ≤ length parts.now }
    ensures { AllEnded parts.now cursors.now result }
{
    cursors.iter().all(|cursor| check_end(&parts[..cursor.end], cursor.place, cursor.count).is_ok())
}

// The merge without writing: for each step number in turn the part whose next event has it. How long the event fields are, if the parts come to their ends.
fn measure(lain: Lain, mut table: [Cursor; 9]) -> Option<usize>
    requires opened { Opened lain.parts.now lain.lengths.now table }
    ensures { Measured lain.entry.parts.now lain.entry.lengths.now result }
{
    let cursors = &mut table[..lain.lengths.len()];
    let mut step = 0;
    let mut size = 0;
    while let Some(field) = take_next(lain.parts, cursors, step) {
        size += field.len();
        step += 1;
    }
    if all_ended(lain.parts, cursors) {
        return Some(size);
    }
    None
}

// "7F: number of events, four bytes (4)"
#[tactic(auto, unfolding(crate::specs::Joined::end_field))]
fn put_end(out: &mut [u8], at: usize, n: u32) -> usize
    requires { at + 7 ≤ length out.old }
    ensures { Written out.old at (end_field n) result out.new }
{
    let [a, b, c, d] = n.to_be_bytes();
    put_bytes(out, at, &[END_TAG, 0, 4, a, b, c, d])
}

// The same merge, writing. Its loop stands twice: one loop with an `impl FnMut` for each field is no plainer, since the sum of `measure` must not overflow and the buffer here
// must have room at each call, so that both closures would need a contract over all calls before. The place is threaded by hand, for `text`'s `Writer` promises nothing of
// the bytes behind the text, and here they stay.
fn write_joined(lain: Lain, mut table: [Cursor; 9], out: &mut [u8]) -> usize
    requires opened { Opened lain.parts.now lain.lengths.now table }
    requires ready { Ready lain.parts.now lain.lengths.now out.old }
    ensures { WrittenOut lain.entry.parts.now lain.entry.lengths.now out.old result out.new }
{
    let first = table[0].place;
    let mut at = put_bytes(out, 0, &lain.parts[..first]);
    let cursors = &mut table[..lain.lengths.len()];
    let mut step = 0;
    while let Some(field) = take_next(lain.parts, cursors, step) {
        at = put_bytes(out, at, field);
        step += 1;
    }
    put_end(out, at, step)
}

// Parts of a trace, joined: the length of the joined trace, or why it is refused and where. Two wrong programs that the contract rules out: one that takes the parts one
// after another, and one that writes before it refuses.
pub fn join(parts: &[u8], lengths: &[u64], out: &mut [u8]) -> Result<usize, RefusedAt>
    ensures { joined_on parts.now lengths.now out.old ≡ record { joined = result; out = out.new } }
{
    if !end_to_end(parts, lengths) {
        return Err(RefusedAt {
            why: Refusal::WrongSize,
            place: 0,
        });
    }
    let lain = Lain { parts, lengths };
    let end = lengths[0] as usize;
    let opening = open_part(&parts[..end], 0)?;
    let first = opening.sizes;
    let Some(cursors) = lay_out(lain, first) else {
        return Err(refusal(lain, first));
    };
    let Some(size) = measure(lain, cursors) else {
        return Err(refusal(lain, first));
    };
    if out.len() < opening.next + size + 7 {
        return Err(RefusedAt {
            why: Refusal::OutputShort,
            place: 0,
        });
    }
    Ok(write_joined(lain, cursors, out))
}
