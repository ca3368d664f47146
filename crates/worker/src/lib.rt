// The worker events of document 01, each on the tables that it touches, of a pool that is known to be sound. All of it is inner (decision 4 of
// docs/DECISIONS.md): the call on a whole pool is `pool::event`.
//     makes, moves, drops, loads, looks, stores, posts    the events; each has the name of its definition in rules/specs/Worker.antt
//     has_worker, has_register, has_link, has_entry       whether the numbers that an event names are there
//     all_there                                           that they all are, or which of them was wrong
//     chosen, first_free                                  the record that a make takes
//     register_takes                                      what load and look do: a register takes what a link holds
//     link_takes                                          what store and post do: a link takes what a register holds
//     logged, snooped                                     the parts of it that may or may not happen
// Each function is lent only the tables that it touches, each as a parameter of its own: a rule of this project (decision 26), so that its contract says of no other table
// anything; and what it may know of them stands in its clauses, for no two are lent the same. A test for 0 asks whether a number of a table is
// a record's: in tables "0 is none" (rules/specs/Pool.antt).
#![tactic(auto)]

ghost use Rattle.std.specs.Prelude.{◌≡◌, ◌+◌, ◌*◌, ◌≤◌, ◌<◌, length, get_or, set};
ghost use Rattle.rules.specs.Size.{links};
ghost use Rattle.rules.specs.Pool.{Pool};
ghost use Rattle.rules.specs.Worker.{chosen as chosen_in};
ghost use Rattle.rules.specs.Outcome.{has_worker, has_register, has_link, has_entry};
ghost use Rattle.tables.specs.Tables.{Tables, put_registers};
ghost use Rattle.tables.specs.Bits.{word_count, marks_in};
ghost use Rattle.tables.specs.Lie.{record_number};
ghost use Rattle.tables.specs.There.{record_there};
ghost use Rattle.tables.specs.Event.{SomePool, Answers};
ghost use Rattle.worker.specs.Lent.{makes_on, loads_on, stores_on, logs_on, logged_on, RoomToLog, held_after, link_taken};
ghost use Rattle.worker.specs.Raw.{all_there, free_from};

use rules::{Answer, Collector, Event, LinkNumber, RecordNumber, Refusal, Sizes};
use tables::flag::is_flagged;
use tables::mark::{first_off, is_on, set_mark};
use tables::place::{
    board_number, last_place, link_number, log_place, record_place, register_place,
};

// "3 means no such worker": there is such a one. This and the next three are each a definition of rules/specs/Outcome.antt, by its name.
fn has_worker(s: Sizes, w: u8) -> bool
    ensures { result ≡ has_worker s w }
{
    u16::from(w) < s.w
}

// "13 register"
fn has_register(s: Sizes, r: u8) -> bool
    ensures { result ≡ has_register s r }
{
    u16::from(r) < s.r
}

// "14 link"
fn has_link(s: Sizes, f: u8) -> bool
    ensures { result ≡ has_link s f }
{
    u16::from(f) < s.k
}

// "14 also for a board entry that isn't there" (document 02, request 5)
fn has_entry(s: Sizes, e: u8) -> bool
    ensures { result ≡ has_entry s e }
{
    u16::from(e) < s.b
}

// "in the order 3, 13, 14": that the numbers that an event names are there, or which was wrong. An event has no `?` for it: an answer has its refusals as a case, by the
// definitions of the rules (rules/src/lib.rt), so that a `Result` would only be turned back into one.
fn all_there(worker: bool, registers: bool, last: bool) -> Result<(), Refusal>
    ensures { result ≡ all_there worker registers last }
{
    if !worker {
        return Err(Refusal::NoSuchWorker);
    }
    if !registers {
        return Err(Refusal::NoSuchRegister);
    }
    if !last {
        return Err(Refusal::NoSuchLink);
    }
    Ok(())
}

// The first free record from a place on, none where none is free: "read off the first zero bit" (document 02, request 9).
fn first_free(used: &[u64], n: u16, from: usize) -> Option<RecordNumber>
    requires { (n ≤ 1024) × (length used.now ≡ word_count n) × (from ≤ n) }
    ensures { result ≡ record_there (free_from n used.now from) }
{
    let i = first_off(used, from);
    if i < usize::from(n) {
        // No `From` makes a place narrower, and a `TryFrom` would answer a failure that can't be.
        return Some(RecordNumber(i as u16 + 1));
    }
    None
}

// What a make takes, of any pool with these marks and this last made number: "the first free record above the last one made, else the lowest".
fn chosen(used: &[u64], n: u16, last: u16) -> Option<RecordNumber>
    requires { (n ≤ 1024) × (length used.now ≡ word_count n) × (last ≤ n) }
    ensures { (p : Pool) → p.records.used ≡ marks_in n used.now → p.last.0 ≡ last → result ≡ record_there (chosen_in p) }
{
    first_free(used, n, usize::from(last)).or_else(|| first_free(used, n, 0))
}

// "make w r: [the record that is chosen] becomes used, its maker is w + 1, register r holds it." "The pool remembers the last made number".
pub fn makes(
    s: Sizes,
    used: &mut [u64],
    makers: &mut [u16],
    registers: &mut [u16],
    w: u8,
    r: u8,
) -> Answer
    requires { SomePool s (makes_on used.old makers.old registers.old) }
    ensures { Answers s (Event.Make w r) (makes_on used.old makers.old registers.old) result (makes_on used.new makers.new registers.new) }
{
    if let Err(why) = all_there(has_worker(s, w), has_register(s, r), true) {
        return Answer::Refused(why);
    }
    let last = last_place(s);
    let Some(a) = chosen(used, s.n, registers[last]) else {
        return Answer::Refused(Refusal::NoneFree);
    };
    let place = record_place(a);
    set_mark(used, place, true);
    makers[place] = u16::from(w) + 1;
    registers[last] = a.0;
    let register = register_place(s, u16::from(w), u16::from(r));
    registers[register] = a.0;
    Answer::Made(a)
}

// "move w r q: register r takes what q holds."
pub fn moves(s: Sizes, registers: &mut [u16], w: u8, r: u8, q: u8) -> Answer
    requires { SomePool s (put_registers registers.old) }
    ensures { Answers s (Event.Move w r q) (put_registers registers.old) result (put_registers registers.new) }
{
    if let Err(why) = all_there(
        has_worker(s, w),
        has_register(s, r) & has_register(s, q),
        true,
    ) {
        return Answer::Refused(why);
    }
    let from = register_place(s, u16::from(w), u16::from(q));
    let a = registers[from];
    let to = register_place(s, u16::from(w), u16::from(r));
    registers[to] = a;
    Answer::Moved(RecordNumber(a))
}

// "drop w r: register r becomes none."
pub fn drops(s: Sizes, registers: &mut [u16], w: u8, r: u8) -> Answer
    requires { SomePool s (put_registers registers.old) }
    ensures { Answers s (Event.Drop w r) (put_registers registers.old) result (put_registers registers.new) }
{
    if let Err(why) = all_there(has_worker(s, w), has_register(s, r), true) {
        return Answer::Refused(why);
    }
    let register = register_place(s, u16::from(w), u16::from(r));
    registers[register] = 0;
    Answer::Dropped
}

// "register r takes link [l]": what a load and a look do.
fn register_takes(
    s: Sizes,
    values: &[u16],
    registers: &mut [u16],
    w: u8,
    r: u8,
    l: LinkNumber,
) -> RecordNumber
    requires { SomePool s (loads_on values.now registers.old) × (w < s.w) × (r < s.r) × (l.0 < links s) }
    ensures { (result ≡ record_number (get_or values.now l.0 0)) × (registers.new ≡ set registers.old (w * s.r + r) (get_or values.now l.0 0)) }
{
    let link = usize::from(l.0);
    let a = values[link];
    let to = register_place(s, u16::from(w), u16::from(r));
    registers[to] = a;
    RecordNumber(a)
}

// "load w r q f: register r takes link f of the record in q."
pub fn loads(s: Sizes, values: &[u16], registers: &mut [u16], w: u8, r: u8, q: u8, f: u8) -> Answer
    requires { SomePool s (loads_on values.now registers.old) }
    ensures { Answers s (Event.Load w r q f) (loads_on values.now registers.old) result (loads_on values.now registers.new) }
{
    if let Err(why) = all_there(
        has_worker(s, w),
        has_register(s, q) & has_register(s, r),
        has_link(s, f),
    ) {
        return Answer::Refused(why);
    }
    let from = register_place(s, u16::from(w), u16::from(q));
    let base = registers[from];
    if base == 0 {
        return Answer::Refused(Refusal::HoldsNone);
    }
    let l = link_number(s, RecordNumber(base), u16::from(f));
    let a = register_takes(s, values, registers, w, r, l);
    Answer::Loaded(a)
}

// "15 look w r e .. with the answers .. of load" (document 02, request 5)
pub fn looks(s: Sizes, values: &[u16], registers: &mut [u16], w: u8, r: u8, e: u8) -> Answer
    requires { SomePool s (loads_on values.now registers.old) }
    ensures { Answers s (Event.Look w r e) (loads_on values.now registers.old) result (loads_on values.now registers.new) }
{
    if let Err(why) = all_there(has_worker(s, w), has_register(s, r), has_entry(s, e)) {
        return Answer::Refused(why);
    }
    let l = board_number(s, u16::from(e));
    let a = register_takes(s, values, registers, w, r, l);
    Answer::Loaded(a)
}

// "if the link's changed mark is off, (link, its value) is added to w's log and the mark goes on". There is room for it (`no_log_is_full` of
// soundness/proofs/NoFullLog.antt), and the mark has been read.
fn logged(
    s: Sizes,
    changed: &mut [u64],
    logs: &mut [u16],
    lengths: &mut [u16],
    w: u8,
    l: LinkNumber,
    old: RecordNumber,
    marked: bool,
)
    requires { RoomToLog s changed.old logs.old lengths.old w l marked }
    ensures { (t : Tables) → logs_on changed.new logs.new lengths.new t ≡ logged_on s w l old (logs_on changed.old logs.old lengths.old t) }
{
    if marked {
        return;
    }
    let link = usize::from(l.0);
    let worker = usize::from(w);
    let n = lengths[worker];
    let place = log_place(s, u16::from(w)) + usize::from(n) * 2;
    // A pair by its places: std does not say what the slice ends as behind `as_chunks_mut`.
    logs[place] = l.0;
    logs[place + 1] = old.0;
    lengths[worker] = n + 1;
    set_mark(changed, link, true);
}

// "if w snoops and the value is not none, that record is marked held"
fn snooped(held: &mut [u64], snoops: &[u16], w: u8, a: RecordNumber)
    requires { (w < length snoops.now) × (a.0 ≤ length held.old * 64) }
    ensures { held.new ≡ held_after w a snoops.now held.old }
{
    if !is_flagged(snoops, usize::from(w)) {
        return;
    }
    if a.0 == 0 {
        return;
    }
    let place = record_place(a);
    set_mark(held, place, true);
}

// ".. the link takes what r holds (none is allowed)". "A store of an equal value is logged like any other.": what a store and a post do, and the value overwritten.
// A sound pool has room to log it.
fn link_takes(
    s: Sizes,
    held: &mut [u64],
    values: &mut [u16],
    changed: &mut [u64],
    registers: &[u16],
    snoops: &[u16],
    logs: &mut [u16],
    lengths: &mut [u16],
    w: u8,
    l: LinkNumber,
    r: u8,
) -> RecordNumber
    requires { SomePool s (stores_on held.old values.old changed.old registers.now snoops.now logs.old lengths.old) × (w < s.w) × (r < s.r) × (l.0 < links s) }
    ensures { (result ≡ record_number (get_or values.old l.0 0))
        × ((t : Tables) → stores_on held.new values.new changed.new registers.now snoops.now logs.new lengths.new t
        ≡ link_taken s w l r (stores_on held.old values.old changed.old registers.now snoops.now logs.old lengths.old t)) }
{
    let link = usize::from(l.0);
    let old = values[link];
    let from = register_place(s, u16::from(w), u16::from(r));
    let new = registers[from];
    let marked = is_on(changed, link);
    logged(s, changed, logs, lengths, w, l, RecordNumber(old), marked);
    values[link] = new;
    snooped(held, snoops, w, RecordNumber(new));
    RecordNumber(old)
}

// "store w q f r": the link is link f of the record in q.
pub fn stores(
    s: Sizes,
    held: &mut [u64],
    values: &mut [u16],
    changed: &mut [u64],
    registers: &[u16],
    snoops: &[u16],
    logs: &mut [u16],
    lengths: &mut [u16],
    w: u8,
    q: u8,
    f: u8,
    r: u8,
) -> Answer
    requires { SomePool s (stores_on held.old values.old changed.old registers.now snoops.now logs.old lengths.old) }
    ensures { Answers s (Event.Store w q f r)
        (stores_on held.old values.old changed.old registers.now snoops.now logs.old lengths.old)
        result
        (stores_on held.new values.new changed.new registers.now snoops.now logs.new lengths.new) }
{
    if let Err(why) = all_there(
        has_worker(s, w),
        has_register(s, q) & has_register(s, r),
        has_link(s, f),
    ) {
        return Answer::Refused(why);
    }
    let through = register_place(s, u16::from(w), u16::from(q));
    let base = registers[through];
    if base == 0 {
        return Answer::Refused(Refusal::HoldsNone);
    }
    let l = link_number(s, RecordNumber(base), u16::from(f));
    let old = link_takes(
        s, held, values, changed, registers, snoops, logs, lengths, w, l, r,
    );
    Answer::Stored(old)
}

// "16 post w e r .., with the answers and the barrier of .. store" (document 02, request 5)
pub fn posts(
    s: Sizes,
    held: &mut [u64],
    values: &mut [u16],
    changed: &mut [u64],
    registers: &[u16],
    snoops: &[u16],
    logs: &mut [u16],
    lengths: &mut [u16],
    w: u8,
    e: u8,
    r: u8,
) -> Answer
    requires { SomePool s (stores_on held.old values.old changed.old registers.now snoops.now logs.old lengths.old) }
    ensures { Answers s (Event.Post w e r)
        (stores_on held.old values.old changed.old registers.now snoops.now logs.old lengths.old)
        result
        (stores_on held.new values.new changed.new registers.now snoops.now logs.new lengths.new) }
{
    if let Err(why) = all_there(has_worker(s, w), has_register(s, r), has_entry(s, e)) {
        return Answer::Refused(why);
    }
    let l = board_number(s, u16::from(e));
    let old = link_takes(
        s, held, values, changed, registers, snoops, logs, lengths, w, l, r,
    );
    Answer::Stored(old)
}
