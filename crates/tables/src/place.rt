// The sizes, and where a record, a link, a register, the last made number and a log stand in their tables (decision 2 of docs/DECISIONS.md). Inner.
ghost use Rattle.std.specs.Prelude.{◌≡◌, true, ◌+◌, ◌-◌, ◌*◌, ◌≤◌, ◌<◌};
ghost use Rattle.rules.specs.Size.{in_range, links, link_number, board_number};
ghost use Rattle.tables.specs.Bits.{word_count};
ghost use Rattle.tables.specs.Lie.{room};

use rules::{LinkNumber, RecordNumber, Sizes};

// "N records 1..1024, K links in each 1..8, W workers 1..8, R registers per worker 1..16." "Add B entries, 0 to 16" (document 02, request 5)
// That sizes are in range is asked in clauses and is no type: they come by value from any caller, and `Known` and `SomePool` (specs/) speak of them and of the tables at once.
pub fn in_range(s: Sizes) -> bool
    ensures { result ≡ in_range s }
{
    (1..=1024).contains(&s.n)
        & (1..=8).contains(&s.k)
        & (1..=8).contains(&s.w)
        & (1..=16).contains(&s.r)
        & (..=16).contains(&s.b)
}

// "(N + 63) / 64 words" (document 02, request 9)
pub fn word_count(n: u16) -> usize
    ensures { result ≡ word_count n }
{
    (usize::from(n) + 63) / 64
}

// "record a at place a - 1"
pub fn record_place(a: RecordNumber) -> usize
    requires { 1 ≤ a.0 }
    ensures { result ≡ a.0 - 1 }
{
    usize::from(a.0) - 1
}

// "S becomes N x K + B" (document 02, request 5)
#[tactic(auto, using(laws::proofs::Number::links_most), unfolding(rules::specs::Size::links))]
pub fn link_count(s: Sizes) -> u16
    requires { in_range s ≡ true }
    ensures { (result ≡ links s) × (result ≤ 8208) }
{
    s.n * s.k + s.b
}

// "Link f of record a has the number (a-1) x K + f.": the one way from a record number to a link number.
pub fn link_number(s: Sizes, a: RecordNumber, f: u16) -> LinkNumber
    requires { (in_range s ≡ true) × (1 ≤ a.0) × (a.0 ≤ s.n) × (f < s.k) }
    ensures { (result ≡ link_number s a f) × (result.0 < links s) }
{
    LinkNumber((a.0 - 1) * s.k + f)
}

// "They are links like the others, numbered N x K and up" (document 02, request 5): the one way from a board entry to a link number.
#[tactic(auto, using(laws::proofs::Number::links_most, laws::proofs::Number::board_inside), unfolding(rules::specs::Size::links, rules::specs::Size::board_number))]
pub fn board_number(s: Sizes, e: u16) -> LinkNumber
    requires { (in_range s ≡ true) × (e < s.b) }
    ensures { (result ≡ board_number s e) × (result.0 < links s) }
{
    LinkNumber(s.n * s.k + e)
}

// "register r of worker w at place w x R + r"
#[tactic(auto, using(laws::proofs::Number::block_inside, crate::proofs::Places::row_most))]
pub fn register_place(s: Sizes, w: u16, r: u16) -> usize
    requires { (in_range s ≡ true) × (w < s.w) × (r < s.r) }
    ensures { (result ≡ w * s.r + r) × (result < s.w * s.r) }
{
    usize::from(w * s.r + r)
}

// Behind the registers: the place of the last made number.
#[tactic(auto, using(crate::proofs::Places::registers_most))]
pub fn last_place(s: Sizes) -> usize
    requires { in_range s ≡ true }
    ensures { result ≡ s.w * s.r }
{
    usize::from(s.w * s.r)
}

// "entry i of worker w at w x 2S + 2i": where the log of worker w begins.
pub fn log_place(s: Sizes, w: u16) -> usize
    requires { (in_range s ≡ true) × (w < s.w) }
    ensures { (result ≡ w * room s) × (result + room s ≤ s.w * room s) }
{
    usize::from(w) * (usize::from(link_count(s)) * 2)
}
