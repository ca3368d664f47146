// The bytes of a trace, as a program reads them, and what it prints of them. All of it is inner (decision 4 of docs/DECISIONS.md): the programs are `replay` and `report`.
//     Parts          what a program does with the parts of a trace
//     Done           what it answers behind a part
//     run_parts      reads a trace to its end, part by part, and prints what the program has for each
//     take_parts     the same; what fails is answered
//     Failure        why a trace is not taken to its end
//     read_behind    a read behind what is left
//     keep_rest      what is left of a part becomes the beginning of the next one
//     read_again     a read that is tried again where it was interrupted or would have had to wait
//     is_passing     whether a read failed in passing
//     say_failed     a read or a write that failed, in words
#![tactic(auto)]

ghost use Rattle.std.specs.Prelude.{◌≡◌, ◌+◌, ◌≤◌, ◌<◌, length, take, IfOk, IfSome, IfNone, OnErr};
ghost use Rattle.std.specs.Io.{ReadsAtMost};
ghost use Rattle.input.specs.Input.{Reads, Keeps};

use std::io;
use std::io::{Eprint, ErrorKind, Print, Read};
use std::thread::yield_now;

// A proved loop has to end, and nothing says that an input does. So the reads are counted, up to this number, which no run reaches.
const MOST_READS: u64 = 1099511627776;

// How long the text of a part is; how the trace has ended, or nothing where more has to be read; and then the place of the first byte that is still needed.
#[derive(Clone, Copy)]
pub struct Done<E> {
    pub size: usize,
    pub ending: Option<E>,
    pub next: usize,
}

pub trait Parts {
    ghost use Rattle.std.specs.Prelude.{ℕ, Bool, List, Option};

    // How a trace ends.
    type Ending: Copy;

    // The text of a part, which is the last one or not.
    ghost lines: { Self → (bytes : List ℕ) → (last : Bool) → List ℕ };

    // How a part is taken: how the trace has ended behind it, the place of the first byte that is still needed, and what is kept for the next part.
    ghost takes: { Self → (bytes : List ℕ) → (last : Bool) → Option Self.Ending → (next : ℕ) → Self → Type 0 };

    // The text of the last line, where the part in which the trace ends so begins `base` bytes behind the trace's beginning.
    ghost last_line: { Self.Ending → (base : ℕ) → List ℕ };

    // The next part may come.
    ghost ready: { Self → Type 0 };

    // So many bytes have room for the text of a part.
    ghost room: { ℕ };

    // The trace ends so in a part of at most 16384 bytes.
    ghost ends: { Self.Ending → Type 0 };

    // A part, which begins where the one before left off, and its text. A field has at most 13 bytes: where more has to be read, fewer are left.
    fn part(&mut self, bytes: &[u8], last: bool, text: &mut [u8]) -> Done<Self::Ending>
        requires ready { ready self.old }
        requires bytes_len_bound { length bytes.now ≤ 16384 }
        requires has_room { room ≤ length text.old }
        ensures ready { ready self.new }
        ensures size { result.size ≤ length text.new }
        ensures lines { take result.size text.new ≡ lines self.old bytes.now last }
        ensures takes { takes self.old bytes.now last result.ending result.next self.new }
        ensures ends { IfSome result.ending ends }
        ensures waits { IfNone result.ending ((result.next ≤ length bytes.now) × (length bytes.now < result.next + 13)) };

    // The text of the last line; answers how long it is. The last part begins `base` bytes behind the trace's beginning.
    fn put_end(&self, text: &mut [u8], ending: Self::Ending, base: usize) -> usize
        requires ends { ends ending }
        requires base_bound { base ≤ 18014398509481984 }
        requires has_room { room ≤ length text.old }
        ensures size { result ≤ length text.new }
        ensures last_line { take result text.new ≡ last_line ending base };
}

// A read or a write failed, or the reads have run out.
#[derive(Drop)]
enum Failure {
    Read(io::Error),
    Write(io::Error),
    Unended,
}

// Whether a read failed in passing: a signal interrupted it, or nothing is there yet on an input that does not wait.
fn is_passing(error: &io::Error) -> bool {
    matches!(error.kind(), ErrorKind::Interrupted | ErrorKind::WouldBlock)
}

// Reads once; a read that failed in passing is tried again, after others had their turn. The last try stands behind the loop, since it answers even a failure in passing.
fn read_again<R: Read>(stream: &mut R, buf: &mut [u8]) -> io::Result<usize>
    ensures { ReadsAtMost result buf.new }
{
    for _ in 1..MOST_READS {
        match stream.read(buf) {
            Err(error) if is_passing(&error) => yield_now(),
            got => return got,
        }
    }
    stream.read(buf)
}

// Reads once, behind the `left` bytes that are left, and answers how many bytes there are now: no more where the input has ended.
pub fn read_behind<R: Read>(stream: &mut R, input: &mut [u8], left: usize) -> io::Result<usize>
    requires { left ≤ length input.old }
    ensures read { IfOk result (λ n. Reads input.old left n input.new) }
    ensures failed { OnErr result (Reads input.old left left input.new) }
{
    let got = read_again(stream, &mut input[left..])?;
    Ok(left + got)
}

// The bytes from one place up to another move to the front.
pub fn keep_rest(input: &mut [u8], from: usize, to: usize)
    requires from_le_to { from ≤ to }
    requires to_in_bounds { to ≤ length input.old }
    ensures { Keeps input.old from to input.new }
{
    input.copy_within(from..to, 0);
}

// A read or a write that failed is said on standard error, in the system's words and without its number.
fn say_failed<R: Alloc + Eprint>(rt: &R, name: &str, what: &str, error: &io::Error) {
    let said = match format!(in rt.alloc(); "{error}") {
        Ok(text) => match text.as_str().split_once(" (os error ") {
            Some((words, _)) => eprintln!(rt; "{name}: {what}: {words}"),
            None => eprintln!(rt; "{name}: {what}: {text}"),
        },
        Err(_) => eprintln!(rt; "{name}: {what}"),
    };
    let _ = said;
}

// Part by part, as long as there are reads. Behind the last byte of a trace nothing is waited for, so that the last part ends the trace.
fn take_parts<W: Print, R: Read, P: Parts>(
    rt: &W,
    stream: &mut R,
    text: &mut [u8],
    parts: &mut P,
) -> Result<(), Failure>
    requires ready { P.ready parts.old }
    requires has_room { P.room ≤ length text.old }
    ensures { P.ready parts.new }
{
    let mut input = [0u8; 16384];
    let mut base = 0usize;
    let mut left = 0usize;
    for _ in 0..MOST_READS {
        let n = read_behind(stream, &mut input, left).map_err(Failure::Read)?;
        let done = parts.part(&input[..n], n == left, text);
        rt.write_all(&text[..done.size]).map_err(Failure::Write)?;
        if let Some(ending) = done.ending {
            let size = parts.put_end(text, ending, base);
            return rt.write_all(&text[..size]).map_err(Failure::Write);
        }
        keep_rest(&mut input, done.next, n);
        base += done.next;
        left = n - done.next;
    }
    Err(Failure::Unended)
}

// Reads a trace to its end, part by part, and prints what the program has for each, and the last line. A read or a write that fails is said on standard error, and
// then no last line is made up; nor is one where the reads run out.
pub fn run_parts<W: Alloc + Eprint + Print, R: Read, P: Parts>(
    rt: &W,
    name: &str,
    stream: &mut R,
    text: &mut [u8],
    parts: &mut P,
)
    requires ready { P.ready parts.old }
    requires has_room { P.room ≤ length text.old }
    ensures { P.ready parts.new }
{
    match take_parts(rt, stream, text, parts) {
        Ok(()) => {}
        Err(Failure::Read(error)) => say_failed(rt, name, "the trace can't be read", &error),
        Err(Failure::Write(error)) => say_failed(rt, name, "the lines can't be written", &error),
        Err(Failure::Unended) => {
            let _ = eprintln!(rt; "{name}: the trace has not ended after {MOST_READS} reads");
        }
    }
}
