// The types of document 01, by value: what a call takes and what it answers.
//     Sizes          N, K, W, R and B
//     RecordNumber   a record's number, 1..N; 0 is none
//     LinkNumber     a link's number, below S
//     Event          the seven worker events, and the collector's
//     Refusal        why a call refuses, a case for each number but 0 of "Numbers a call may answer", and for those of document 02
//     Answer         what a call answers, a case for each thing that can happen
//     Collector      the collector's own record
//     Answered       an answer, together with the collector's record after it
// What they mean stands in specs/; the numbers that an answer stands for are in specs/Reply.antt.
#![tactic(auto)]

// "N records 1..1024, K links in each 1..8, W workers 1..8, R registers per worker 1..16." "Add B entries, 0 to 16, of one record number each" (document 02,
// request 5): the board.
#[derive(Clone, Copy, PartialEq, Eq, Default)]
pub struct Sizes {
    pub n: u16,
    pub k: u16,
    pub w: u16,
    pub r: u16,
    pub b: u16,
}

// "Record numbers and link numbers are counted separately and never stand for one another." The one way from a record to a link is the
// link-number formula, `link_number` of specs/Size.antt, and the one way from a board entry to a link is `board_number` there. None is the number 0 and no case of
// an `Option`, since the lent tables and `none` of specs/Pool.antt have it so.
#[derive(Clone, Copy, PartialEq, Eq)]
pub struct RecordNumber(pub u16);

#[derive(Clone, Copy, PartialEq, Eq)]
pub struct LinkNumber(pub u16);

// The letters are document 01's: w a worker, r and q registers of it, f a link of the record in q; e is a board entry (document 02, request 5). Each is one byte, as
// in a trace.
#[derive(Clone, Copy)]
pub enum Event {
    Make { w: u8, r: u8 },
    Move { w: u8, r: u8, q: u8 },
    Drop { w: u8, r: u8 },
    Load { w: u8, r: u8, q: u8, f: u8 },
    Store { w: u8, q: u8, f: u8, r: u8 },
    Look { w: u8, r: u8, e: u8 },
    Post { w: u8, e: u8, r: u8 },
    Collect,
}

// The numbers are those of "Numbers a call may answer", and of document 02. 6 is not used: no pool can produce a full log (document 02, request 4).
#[derive(Clone, Copy)]
pub enum Refusal {
    // A size is out of its range, or a lent table has another length.
    WrongSize = 1,
    // The pool is not sound.
    NotSound = 2,
    // No such worker (document 02, request 2).
    NoSuchWorker = 3,
    // Load or store through a register that holds none.
    HoldsNone = 4,
    // Make, and no record is free.
    NoneFree = 5,
    // Tag unknown, first field not the sizes, or sizes a second time.
    WrongTag = 7,
    // Field length not the tag's.
    WrongLength = 8,
    // The trace stops inside a field or before the end field.
    StopsShort = 9,
    // Step number not the previous plus one.
    WrongStep = 10,
    // A byte after the end field.
    ExtraByte = 11,
    // End field's count is not the last step number.
    WrongCount = 12,
    // No such register (document 02, request 2).
    NoSuchRegister = 13,
    // No such link (document 02, request 2), "also for a board entry that isn't there" (document 02, request 5).
    NoSuchLink = 14,
    // Two parts differ in sizes (document 02, request 3).
    SizesDiffer = 15,
    // The output is too short (document 02, request 3).
    OutputShort = 16,
}

// A refusal is a case here and no `Err` around it, since the definitions of specs/Reply.antt and specs/Outcome.antt read every answer from this one enum.
#[derive(Clone, Copy)]
pub enum Answer {
    // An accepted sizes field made the pool fresh.
    Fresh,
    // make: the record that became used.
    Made(RecordNumber),
    // move: the value that the register took.
    Moved(RecordNumber),
    // drop.
    Dropped,
    // load or look: the value that the register took.
    Loaded(RecordNumber),
    // store or post: the value overwritten.
    Stored(RecordNumber),
    // collect: a step that freed nothing.
    Stepped,
    // collect: the record freed.
    Freed(RecordNumber),
    // What was asked for is not done, and the refusal says why.
    Refused(Refusal),
}

// "The collector's phase, position and closed-cycle number form one record that each step moves on." The phase is a number and no enum, since the calls take
// any number for it, nonsense too: a pool with another phase than 0 to 6 is not sound, and is answered with 2.
#[derive(Clone, Copy, Default)]
pub struct Collector {
    pub phase: u16,
    pub position: u16,
    pub closed: u16,
}

// What a call on a pool answers: the event's answer, and the collector's record after it, which lives in no table.
#[derive(Clone, Copy)]
pub struct Answered {
    pub answer: Answer,
    pub collector: Collector,
}
