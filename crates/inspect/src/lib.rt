// The sound check: one pass over each table, and one more over the changed marks. Local arrays of the largest size hold what has been seen of each link and the
// tally of each record, so that its cost grows with the tables and with nothing else; no test of an entry is a branch. All of it is inner (decision 4 of
// docs/DECISIONS.md): the public call is `pool::sound`.
//     inspect                                    the check, on tables of exact lengths
//     at_most, all_zero                          numbers that are at most another, and that are 0
//     unused_off                                 words whose unused bits are 0
//     phase_fits, counted_to, uncleared_from     the collector's record, and where it parts the history
//     Notes                                      what is noted of each link: of the entries of a list, of all logs, and of the links' values
//     place_of                                   the place of a link
//     marks_match, whole_matches, rest_matches   each changed mark against what was seen of its link, word by word, and of the last word
//     seen_once                                  64 links at once
//     tally_link, tally_links                    how many links count for each record
//     counts_match                               each count against the tally of its record
//     numbers_fit, links_fit                     the parts of the check
#![tactic(auto)]

ghost use Rattle.std.specs.Prelude.{◌≡◌, true, ◌&&◌, ℕ, ◌+◌, ◌*◌, ◌%◌, ◌≤◌, ◌<◌, leb, length, get_or, replicate};
ghost use mathlib.Core.List.{flatten};
ghost use Rattle.rules.specs.Size.{in_range, links};
ghost use Rattle.rules.specs.Sound.{Each};
ghost use Rattle.tables.specs.Bits.{word_count};
ghost use Rattle.tables.specs.Lent.{seen};
ghost use Rattle.tables.specs.Known.{Exact};
ghost use Rattle.clauses.specs.IsSound.{every, below, is_packed, is_zero};
ghost use Rattle.clauses.specs.Entered.{place_of};
ghost use Rattle.clauses.specs.Tallied.{raised, tallied};
ghost use Rattle.clauses.specs.Inspected.{phase_fits, counted_to, uncleared_from, marks_match, counts_match, links_fit, numbers_fit, inspected};
ghost use Rattle.inspect.specs.Parts.{matches, is_once, Fits};

use rules::{Collector, Sizes};
use tables::lent::ReadTables;
use tables::mark::{has_bit, word_of};
use tables::place::{link_count, log_place};

// Every number of a table is at most another.
fn at_most(xs: &[u16], most: u16) -> bool
    ensures { result ≡ every (λ n. leb n most) xs.now }
{
    xs.iter().fold(true, |ok, x| ok & (*x <= most))
}

// Every number of a table is 0: their `or` is. `at_most` of 0 is slower.
fn all_zero(xs: &[u16]) -> bool
    ensures { result ≡ every is_zero xs.now }
{
    xs.iter().fold(0, |any, x| any | *x) == 0
}

// "A sound pool has the unused bits at 0" (document 02, request 9): of n marks in their words only the last word can have some.
fn unused_off(words: &[u64], n: u16) -> bool
    requires { length words.now ≡ word_count n }
    ensures { result ≡ is_packed n words.now }
{
    let end = usize::from(n);
    let rest = end % 64;
    rest == 0 || words[end / 64] >> rest == 0
}

// Phase and position fit each other and the number of entries in the history.
#[tactic(auto, unfolding(clauses::specs::Inspected::phase_fits))]
fn phase_fits(s: Sizes, c: Collector, entries: u16) -> bool
    ensures { result ≡ phase_fits s c entries }
{
    match c.phase {
        0 | 6 => (c.position == 0) & (entries == 0),
        1 => (c.position < s.w) & (entries == 0),
        2 | 4 => c.position < s.w,
        3 | 5 => c.position < entries,
        _ => false,
    }
}

// How many entries of the history are counted.
#[tactic(auto, unfolding(clauses::specs::Inspected::counted_to))]
fn counted_to(c: Collector) -> u16
    ensures { result ≡ counted_to c }
{
    match c.phase {
        5 => c.position,
        _ => 0,
    }
}

// Behind how many entries the uncleared part of the history begins.
#[tactic(auto, unfolding(clauses::specs::Inspected::uncleared_from))]
fn uncleared_from(c: Collector, entries: u16) -> u16
    ensures { result ≡ uncleared_from c entries }
{
    match c.phase {
        2 => 0,
        3 => c.position,
        _ => entries,
    }
}

// The place of a link. A number past the last has the first, and then the test has failed.
#[tactic(auto, unfolding(clauses::specs::Entered::place_of))]
fn place_of(link: u16) -> usize
    ensures { (result ≡ place_of link) × (result < 8208) }
{
    if link < 8208 { usize::from(link) } else { 0 }
}

// What is noted of each link. There is a place for each of 8,208 links, the most that a pool has. `seen` and `last` are two arrays and not one of pairs: `marks_match`
// takes `seen` by 64 links of a word at a time, and `take_values` copies the links' values over `last` as a whole.
#[derive(Drop)]
struct Notes {
    // every number was in range
    ok: bool,
    // how often each link stood in the logs and the uncleared history, and in the history
    seen: [u32; 8208],
    // the last value that is known of each link
    last: [u16; 8208],
}

impl Notes {
    ghost use Rattle.tables.specs.Lie.{entries, room, logs_in};
    ghost use Rattle.clauses.specs.Entered.{RoomFor, entered_all};
    ghost use Rattle.clauses.specs.Inspected.{valued, padded_logs};
    ghost use Rattle.inspect.specs.Parts.{noted};

    // The entries of a list are in range; each raises what was seen of its link, and is the last that is known of it.
    #[tactic(auto, unfolding(tables::specs::Lie::entries, clauses::specs::Entered::entered_all))]
    fn enter(&mut self, s: Sizes, list: &[u16], by: u32)
        requires { (in_range s ≡ true) × RoomFor self.old.seen (length list.now * by) }
        ensures { (n : ℕ) → length list.now ≡ n * 2 → entered_all (links s) s.n by (entries n list.now) (noted self.old) ≡ noted self.new }
    {
        let links = link_count(s);
        // A local in the loop, for as a field it is slower.
        let mut ok = self.ok;
        for [link, old] in list.as_chunks::<2>().0 {
            ok &= (*link < links) & (*old <= s.n);
            let place = place_of(*link);
            self.seen[place] += by;
            self.last[place] = *old;
        }
        self.ok = ok;
    }

    // The links' values, each a record number, are the last that is known of each link.
    fn take_values(&mut self, values: &[u16], records: u16)
        requires { length values.now ≤ 8208 }
        ensures { valued records values.now (noted self.old) ≡ noted self.new }
    {
        self.ok &= at_most(values, records);
        self.last[..values.len()].copy_from_slice(values);
    }

    // The entries of all logs, and whether 0 stands past their lengths.
    fn enter_logs(&mut self, s: Sizes, logs: &[u16], lengths: &[u16]) -> bool
        requires { (in_range s ≡ true) × (length logs.now ≡ s.w * room s) × (length lengths.now ≡ s.w + 1) × Each (λ n. n ≤ links s) lengths.now × RoomFor self.old.seen 131072 }
        ensures entered { entered_all (links s) s.n 1 (flatten (logs_in s logs.now lengths.now)) (noted self.old) ≡ noted self.new }
        ensures padded { result ≡ padded_logs s logs.now lengths.now }
    {
        let room = usize::from(link_count(s)) * 2;
        let mut padded = true;
        for w in 0..s.w {
            let from = log_place(s, w);
            let to = from + usize::from(lengths[usize::from(w)]) * 2;
            self.enter(s, &logs[from..to], 1);
            padded &= all_zero(&logs[to..from + room]);
        }
        padded
    }
}

// The changed marks of the links of a word that is not whole, each against what was seen of its link.
#[tactic(auto, using(crate::proofs::Tested::below_more), unfolding(clauses::specs::IsSound::below))]
fn rest_matches(word: u64, seen: &[u32]) -> bool
    requires { length seen.now ≤ 64 }
    ensures { result ≡ below (length seen.now) (matches word seen.now) }
{
    let mut ok = true;
    for (i, times) in seen.iter().enumerate() {
        let mark = u32::from(has_bit(word, i));
        ok &= (*times % 131072 == mark) & (*times < 262144);
    }
    ok
}

// Of 64 links none was seen twice among the logs and the uncleared history, nor in the history.
fn seen_once(seen: &[u32; 64]) -> bool
    ensures { result ≡ every is_once seen.now }
{
    seen.iter().fold(
        true,
        |ok, times| ok & ((*times % 131072 <= 1) & (*times < 262144)),
    )
}

// The changed marks of a whole word: each link was seen at most once, and where it was, there is a mark. Mark by mark, as `rest_matches`, is slower.
fn whole_matches(word: u64, seen: &[u32; 64]) -> bool
    ensures { result ≡ below 64 (matches word seen.now) }
{
    seen_once(seen) & (word_of(|i| seen[i] % 131072 == 1) == word)
}

// Each changed mark is how often its link stands among the logs and the uncleared history, and no link stands twice in the history: word by word, and of the last
// as many as are marks.
#[tactic(auto, unfolding(clauses::specs::IsSound::below, clauses::specs::Inspected::marks_match))]
fn marks_match(changed: &[u64], seen: &[u32; 8208], links: u16) -> bool
    requires { (links ≤ 8208) × (length changed.now ≡ word_count links) }
    ensures { result ≡ marks_match links changed.now seen.now }
{
    let (whole, rest) = seen[..usize::from(links)].as_chunks::<64>();
    let mut ok = true;
    for (times, word) in whole.iter().zip(changed) {
        ok &= whole_matches(*word, times);
    }
    if rest.is_empty() {
        return ok;
    }
    ok & rest_matches(changed[whole.len()], rest)
}

// One link more counts for a record, in the tally that begins here.
fn tally_link(tally: &mut [u16; 8320], from: usize, value: u16)
    requires { (from ≤ 6240) × Each (λ x. x ≤ 8207) tally.old }
    ensures { tally.new ≡ raised tally.old (from + value % 2048) }
{
    tally[from + usize::from(value % 2048)] += 1;
}

// How many of the first links count for each record, four links in a turn, one for each of four tallies side by side: one loop over all of them is slower, and one
// over `chunks(4)`, with no loop for the rest, took twice as long. The four tallies are one array, for the definition `tallied` of `clauses` has them in one list.
fn tally_links(tally: &mut [u16; 8320], last: &[u16; 8208], links: u16)
    requires { (tally.old ≡ replicate 8320 0) × (links ≤ 8208) }
    ensures { (tally.new ≡ tallied last.now links (replicate 8320 0)) × Each (λ x. x ≤ 8208) tally.new }
{
    let (fours, rest) = last[..usize::from(links)].as_chunks::<4>();
    for four in fours {
        for (i, value) in four.iter().enumerate() {
            tally_link(tally, i * 2080, *value);
        }
    }
    for (i, value) in rest.iter().enumerate() {
        tally_link(tally, i * 2080, *value);
    }
}

// Each count is the tally of its record.
#[tactic(auto, using(crate::proofs::Tested::below_more), unfolding(clauses::specs::IsSound::below, clauses::specs::Inspected::counts_match))]
fn counts_match(counts: &[u16], tally: &[u16; 8320]) -> bool
    requires { (length counts.now ≤ 1024) × Each (λ x. x ≤ 8208) tally.now }
    ensures { result ≡ counts_match counts.now tally.now }
{
    let mut ok = true;
    for (i, count) in counts.iter().enumerate() {
        let a = i + 1;
        ok &= tally[a] + tally[2080 + a] + tally[4160 + a] + tally[6240 + a] == *count;
    }
    ok
}

// Every number of the tables that hold one number for a record, a register or a worker is in its range.
#[tactic(auto, unfolding(clauses::specs::Inspected::numbers_fit))]
fn numbers_fit(s: Sizes, t: ReadTables) -> bool
    requires { Exact s (seen t) }
    ensures { result ≡ numbers_fit s (seen t.entry) }
{
    unused_off(t.used, s.n)
        & unused_off(t.held, s.n)
        & unused_off(t.candidates, s.n)
        & at_most(t.makers, s.w)
        & at_most(t.registers, s.n)
        & at_most(t.snoops, 1)
}

// Every clause on links: the entries of logs and history, what stands past them, the changed marks and the counts. Its arrays take some 66 KiB of the stack: never laid into
// another, so that a call which is refused before has them not.
#[inline(never)]
fn links_fit(s: Sizes, t: ReadTables, c: Collector) -> bool
    requires { Fits s (seen t) c }
    ensures { result ≡ links_fit s (seen t.entry) c }
{
    let links = link_count(s);
    let n = t.lengths[usize::from(s.w)];
    let to = usize::from(counted_to(c)) * 2;
    let from = usize::from(uncleared_from(c, n)) * 2;
    let end = usize::from(n) * 2;
    let mut notes = Notes {
        ok: true,
        seen: [0; 8208],
        last: [0; 8208],
    };
    let mut tally = [0; 8320];
    notes.enter(s, &t.history[..to], 131072);
    notes.take_values(t.values, s.n);
    let padded = notes.enter_logs(s, t.logs, t.lengths);
    notes.enter(s, &t.history[to..from], 131072);
    notes.enter(s, &t.history[from..end], 131073);
    tally_links(&mut tally, &notes.last, links);
    notes.ok
        & padded
        & all_zero(&t.history[end..])
        & unused_off(t.changed, links)
        & marks_match(t.changed, &notes.seen, links)
        & counts_match(t.counts, &tally)
}

// The whole check, on tables of exact lengths. Laid into each call, as `pool::check` is, so that the tables are handed on once, to `links_fit`.
#[inline(always)]
pub fn inspect(s: Sizes, t: ReadTables, c: Collector) -> bool
    requires { (in_range s ≡ true) × Exact s (seen t) }
    ensures { result ≡ inspected s (seen t.entry) c }
{
    let fits = at_most(t.lengths, link_count(s)) & phase_fits(s, c, t.lengths[usize::from(s.w)]);
    // What costs little to refuse is refused before whole tables are looked through.
    if !fits {
        return false;
    }
    numbers_fit(s, t) && links_fit(s, t, c)
}
