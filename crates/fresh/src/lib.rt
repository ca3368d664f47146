// Lent tables made a fresh pool, and the two public calls that look into no pool. Neither has a `requires`: each takes any sizes, any lengths and any contents.
//     fresh             makes lent tables a fresh pool
//     free_records      how many records are free
// Inner: is_exact and has_shape, the tests of sizes and lengths.
#![tactic(auto)]

ghost use Rattle.std.specs.Prelude.{◌≡◌};
ghost use Rattle.tables.specs.Lent.{contents, seen, SameTables};
ghost use Rattle.fresh.specs.Fits.{is_exact, fits};
ghost use Rattle.fresh.specs.Free.{free_in};
ghost use Rattle.fresh.specs.Fresh.{made_fresh};

use rules::{Answer, Answered, Collector, Refusal, Sizes};
use tables::lent::{LentTables, ReadTables};
use tables::mark::count_off;
use tables::place::{in_range, word_count};

// "lent tables .. whose lengths must be exact"
#[tactic(auto, unfolding(crate::specs::Fits::is_exact, rules::specs::Size::links))]
fn is_exact(s: Sizes, t: ReadTables) -> bool
    ensures { result ≡ is_exact s (seen t.entry) }
{
    let records = usize::from(s.n);
    let links = records * usize::from(s.k) + usize::from(s.b);
    let workers = usize::from(s.w);
    let words = word_count(s.n);
    (t.used.len() == words)
        & (t.counts.len() == records)
        & (t.held.len() == words)
        & (t.candidates.len() == words)
        & (t.makers.len() == records)
        & (t.values.len() == links)
        & (t.changed.len() == links.div_ceil(64))
        & (t.registers.len() == workers * usize::from(s.r) + 1)
        & (t.snoops.len() == workers)
        & (t.logs.len() == workers * (links * 2))
        & (t.history.len() == links * 2)
        & (t.lengths.len() == workers + 1)
}

// "1: a size is out of its range, or a lent table has another length": it is not so. Inner.
pub fn has_shape(s: Sizes, t: ReadTables) -> bool
    ensures { result ≡ fits s (seen t.entry) }
{
    in_range(s) & is_exact(s, t)
}

// Makes lent tables a fresh pool, whatever they held; 1 where a size or a length is wrong, and then nothing changes. Two wrong programs that the contract rules
// out: one that leaves what stood in a table, and one that clears the tables of wrong lengths too.
#[tactic(auto, unfolding(crate::specs::Fresh::made_fresh))]
pub fn fresh(s: Sizes, t: &mut LentTables, c: Collector) -> Answered
    ensures made { made_fresh s (contents t.old) c ≡ record { answer = result.answer; collector = result.collector; tables = contents t.new } }
    ensures same { SameTables t.old t.new }
{
    if !has_shape(s, t.to_read()) {
        return Answered {
            answer: Answer::Refused(Refusal::WrongSize),
            collector: c,
        };
    }
    t.used.fill(0);
    t.counts.fill(0);
    t.held.fill(0);
    t.candidates.fill(0);
    t.makers.fill(0);
    t.values.fill(0);
    t.changed.fill(0);
    t.registers.fill(0);
    t.snoops.fill(0);
    t.logs.fill(0);
    t.history.fill(0);
    t.lengths.fill(0);
    Answered {
        answer: Answer::Fresh,
        collector: Collector::default(),
    }
}

// How many records are free, of n in words of used marks: "the number of free records comes from the number of ones" (document 02, request 9). It is n less the ones,
// whatever words these are; where there are more ones, 0. Two wrong programs that the contract rules out: one that answers n, and one that stops counting
// behind the first word.
pub fn free_records(n: u16, used: &[u64]) -> usize
    ensures { result ≡ free_in n used.now }
{
    usize::from(count_off(used, n))
}
