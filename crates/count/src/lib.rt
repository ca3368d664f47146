// Phase 5 of the collector, on the tables that it touches, of a pool that is known to be sound. All of it is inner (decision 4 of docs/DECISIONS.md).
//     counts                     the step
//     view_value, look_up        the view value of a link, and the look-up in the logs
// Each of these has the name of its definition in rules/specs/Collect.antt and View.antt. One helps, whose definition there has another name, `old_in`:
//     find                       what one log says of a link
// Each function is lent only the tables that it touches, each as a parameter of its own: a rule of this project (decision 26), so that its contract says of no other table
// anything.
#![tactic(auto)]

ghost use Rattle.std.specs.Prelude.{◌≡◌, true, ℕ, ◌*◌, ◌≤◌, ◌<◌, length, unwrap_or};
ghost use Rattle.rules.specs.Size.{links};
ghost use Rattle.rules.specs.View.{times, old_in, look_up, view_value};
ghost use Rattle.tables.specs.Tables.{Tables};
ghost use Rattle.tables.specs.Bits.{word_count, mark_at};
ghost use Rattle.tables.specs.Lie.{entries, logs_in, pool_of};
ghost use Rattle.tables.specs.Event.{InPhase, Steps};
ghost use Rattle.count.specs.Lent.{views_on, counts_on};
ghost use Rattle.count.specs.Looked.{OneEntry};

use advance::{onward, stepped};
use rules::{Answered, Collector, LinkNumber, RecordNumber, Sizes};
use tables::count::{falls, rises};
use tables::mark::is_on;
use tables::place::log_place;

// What a log, entry by entry, says of a link that it says one thing of, or nothing: "newest entry to oldest" (request 6 of document 02).
fn find(log: &[u16], l: LinkNumber) -> Option<RecordNumber>
    requires { (n : ℕ) → length log.now ≡ n * 2 → times l (entries n log.now) ≤ 1 }
    ensures { (n : ℕ) → length log.now ≡ n * 2 → (a : RecordNumber) → old_in l (entries n log.now) a ≡ unwrap_or result a }
{
    let (entries, _) = log.as_chunks::<2>();
    entries
        .iter()
        .rfind(|[link, _]| *link == l.0)
        .map(|[_, old]| RecordNumber(*old))
}

// The look-up of a changed link in the logs: "the old value in the one log entry for it". In which order it looks is its own affair, for there is one entry: "from the
// last worker to the first" (request 6 of document 02). With `find_map` the part of a log to be looked through would be cut out in the closure, and the one that is there be asked
// for behind it: no plainer.
fn look_up(s: Sizes, logs: &[u16], lengths: &[u16], l: LinkNumber) -> RecordNumber
    requires { OneEntry s logs.now lengths.now l }
    ensures { result ≡ look_up l (logs_in s logs.now lengths.now) }
{
    for w in (0..s.w).rev() {
        let from = log_place(s, w);
        let n = lengths[usize::from(w)];
        let to = from + usize::from(n) * 2;
        if let Some(a) = find(&logs[from..to], l) {
            return a;
        }
    }
    unreachable!()
}

// "The view value of a link is its value if its changed mark is off, else the old value in the one log entry for it."
fn view_value(
    s: Sizes,
    values: &[u16],
    changed: &[u64],
    logs: &[u16],
    lengths: &[u16],
    l: LinkNumber,
) -> RecordNumber
    requires { (l.0 < links s) × (length values.now ≡ links s) × (length changed.now ≡ word_count (links s)) × (mark_at changed.now l.0 ≡ true → OneEntry s logs.now lengths.now l) }
    ensures { (t : Tables) (c : Collector) → result ≡ view_value (pool_of s (views_on values.now changed.now logs.now lengths.now t) c) l }
{
    let link = usize::from(l.0);
    if is_on(changed, link) {
        return look_up(s, logs, lengths, l);
    }
    RecordNumber(values[link])
}

// "Phase 5: for the entry (link, old): first the count of old falls by 1, and at 0 it becomes a candidate; then the count of the link's view value rises by
// 1. .. After the last, the history is emptied"
pub fn counts(
    s: Sizes,
    counts: &mut [u16],
    candidates: &mut [u64],
    values: &[u16],
    changed: &[u64],
    logs: &[u16],
    history: &mut [u16],
    lengths: &mut [u16],
    c: Collector,
) -> Answered
    requires { InPhase 5 s (counts_on counts.old candidates.old values.now changed.now logs.now history.old lengths.old) c }
    ensures { Steps 5 s (counts_on counts.old candidates.old values.now changed.now logs.now history.old lengths.old) c result
        (counts_on counts.new candidates.new values.now changed.now logs.now history.new lengths.new) }
{
    let last = usize::from(s.w);
    let n = lengths[last];
    let [link, old] = history.as_chunks::<2>().0[usize::from(c.position)];
    falls(counts, candidates, RecordNumber(old));
    let view = view_value(s, values, changed, logs, lengths, LinkNumber(link));
    rises(counts, view);
    if n <= c.position + 1 {
        history[..usize::from(n) * 2].fill(0);
        lengths[last] = 0;
        return stepped(onward(c, n, 0));
    }
    stepped(onward(c, n, n))
}
