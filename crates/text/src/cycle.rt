// The lines of `report` (document 02, request 7). Inner.
//     put_cycles     the lines of many cycles
//     put_cycle      the line of one
//     put_named      a word and a number
//     put_net        a number that may be below nought
ghost use Rattle.std.specs.Prelude.{◌++◌, ◌+◌, ◌*◌, ◌≤◌, length};
ghost use Rattle.std.specs.Int.Signed.{mag};
ghost use Rattle.text.specs.Text.{decimal, StartsWith};
ghost use Rattle.text.specs.Cycle.{net_decimal, cycle_text, cycles_text, Printable};
ghost use Rattle.text.specs.Writer.{Room, Puts};

use crate::writer::Writer;

impl Writer<'_> {
    // A word, and a number in decimal digits.
    fn put_named(&mut self, word: &[u8], n: u64)
        requires { Room self.old (length word.now + 20) }
        ensures { Puts self.old (word.now ++ decimal n) self.new }
    {
        self.put(word);
        self.put_decimal(n);
    }

    // "may be below nought, and prints with a minus sign": behind the sign it is negated, the form that document 01 asks for.
    fn put_net(&mut self, net: i32)
        requires room { Room self.old 21 }
        requires net_bound { mag net ≤ 2147483646 }
        ensures { Puts self.old (net_decimal net) self.new }
    {
        if net < 0 {
            self.put_byte(b'-');
            self.put_decimal((-net) as u64);
        } else {
            self.put_decimal(net as u64);
        }
    }

    // "`cycle`, its ordinal from 1, `taken` .., `freed` .., `net` .."
    #[tactic(auto, using(crate::proofs::Digits::decimal_20, crate::proofs::Below::net_most))]
    fn put_cycle(&mut self, ordinal: u64, taken: u64, freed: u64, net: i32)
        requires room { Room self.old 114 }
        requires net_bound { mag net ≤ 2147483646 }
        ensures { Puts self.old (cycle_text ordinal taken freed net) self.new }
    {
        self.put_named(b"cycle ", ordinal);
        self.put_named(b" taken ", taken);
        self.put_named(b" freed ", freed);
        self.put(b" net ");
        self.put_net(net);
        self.put_byte(b'\n');
    }
}

// The lines of the cycles behind the first `before`, whose numbers stand in `numbers`, three for each, from the buffer's start on; answers how long they are.
// The ordinal is counted beside the loop: `(before + 1..).zip(cycles)` overflows where there are no cycles and `before` is the last number of 64 bits, which is allowed.
pub fn put_cycles(out: &mut [u8], before: u64, numbers: &[i64]) -> usize
    requires printable { Printable numbers.now }
    requires numbers_bound { before + length numbers.now ≤ 18446744073709551615 }
    requires numbers_in_bounds { length numbers.now * 38 ≤ length out.old }
    ensures { StartsWith out.new result (cycles_text before numbers.now) }
{
    let mut w = Writer::new(out);
    let mut last = before;
    let (cycles, _) = numbers.as_chunks::<3>();
    for &[taken, freed, net] in cycles {
        last += 1;
        // Numbers that C takes as i64: none is out of range, by `Printable`.
        w.put_cycle(last, taken as u64, freed as u64, net as i32);
    }
    w.len()
}
