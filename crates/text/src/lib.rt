// What `replay` and `report` print, put into a buffer. All of it is inner (decision 4 of docs/DECISIONS.md): each asks that the text has room.
//     writer                  a buffer that is written from its start on
//     counter                 a number whose digits are kept while it is counted up
//     cycle                   the lines of cycles
//     put_lines               the lines of events
//     put_end, put_refused    the two last lines
//     put_bytes               bytes at a place of a buffer
#![tactic(auto)]

mod counter;
pub mod cycle;
mod writer;

ghost use Rattle.std.specs.Prelude.{◌≡◌, ◌++◌, ◌+◌, ◌*◌, ◌≤◌, ◌<◌, length};
ghost use Rattle.text.specs.Text.{decimal, space, two_text, lines_text, EventsBehind, end_text, refused_text, Written, StartsWith};

use counter::Counter;
use writer::Writer;

// The lines of the events behind a step, whose numbers and values stand in turn in `answers`, from the buffer's start on; answers how long they are.
pub fn put_lines(out: &mut [u8], step: u32, answers: &[u16]) -> usize
    requires events_behind { EventsBehind step answers.now }
    requires answers_in_bounds { length answers.now * 12 + 64 ≤ length out.old }
    ensures { StartsWith out.new result (lines_text step answers.now) }
{
    let mut w = Writer::new(out);
    let mut last = Counter::new(step);
    let (pairs, _) = answers.as_chunks::<2>();
    for &[number, value] in pairs {
        last.up();
        w.put_line(&last, number, value);
    }
    w.len()
}

// "`end`, how many records are free, the closed-cycle number"
pub fn put_end(out: &mut [u8], free: u16, closed: u16) -> usize
    requires { 64 ≤ length out.old }
    ensures { StartsWith out.new result (end_text free closed) }
{
    let mut w = Writer::new(out);
    w.put(b"end ");
    w.put_two(u64::from(free), u64::from(closed));
    w.len()
}

// "`refused`, the number, the offset"
pub fn put_refused(out: &mut [u8], number: u16, place: u64) -> usize
    requires { 64 ≤ length out.old }
    ensures { StartsWith out.new result (refused_text number place) }
{
    let mut w = Writer::new(out);
    w.put(b"refused ");
    w.put_two(u64::from(number), place);
    w.len()
}

// Bytes, from the place `at` on; answers the place behind them. A loop: `copy_from_slice` on slices that are lent becomes the C library's `memmove`, and the library for C,
// which joins parts by it, calls nothing but `memcpy` and `memset` (docs/LIBRARY.md).
pub fn put_bytes(out: &mut [u8], at: usize, bytes: &[u8]) -> usize
    requires { at + length bytes.now ≤ length out.old }
    ensures { Written out.old at bytes.now result out.new }
{
    for (i, byte) in bytes.iter().enumerate() {
        out[at + i] = *byte;
    }
    at + bytes.len()
}
