// A record's count, that falls or rises. Inner.
ghost use Rattle.std.specs.Prelude.{◌≡◌, ◌≤◌, ◌<◌, length};
ghost use Rattle.rules.specs.Pool.{of_record};
ghost use Rattle.tables.specs.Bits.{word_count};
ghost use Rattle.tables.specs.Counted.{fewer, fallen, more};

use crate::mark::set_mark;
use crate::place::record_place;
use rules::RecordNumber;

// "the count .. falls by 1, and at 0 it becomes a candidate". "None has no count."
pub fn falls(counts: &mut [u16], candidates: &mut [u64], a: RecordNumber)
    requires { (a.0 ≤ length counts.old) × (length candidates.old ≡ word_count (length counts.old)) × ((1 ≤ a.0) → 1 ≤ of_record counts.old a.0 0) }
    ensures { (counts.new ≡ fewer a.0 counts.old) × (candidates.new ≡ fallen a.0 counts.old candidates.old) }
{
    if a.0 == 0 {
        return;
    }
    let place = record_place(a);
    counts[place] -= 1;
    if counts[place] == 0 {
        set_mark(candidates, place, true);
    }
}

// "the count .. rises by 1"
pub fn rises(counts: &mut [u16], a: RecordNumber)
    requires { (a.0 ≤ length counts.old) × (of_record counts.old a.0 0 < 65535) }
    ensures { counts.new ≡ more a.0 counts.old }
{
    if a.0 == 0 {
        return;
    }
    let place = record_place(a);
    counts[place] += 1;
}
