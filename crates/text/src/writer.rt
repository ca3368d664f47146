// A buffer that is written from its start on. What is written stands in contracts, and of what a formatter writes none says anything: so no `Display`. Inner.
//     Writer                 a buffer, and how long the text is that stands in it
//     decimal_places         how many digits a number has
//     new, len               a buffer that nothing is written into yet; how long the text is
//     put, put_byte          bytes, and one
//     put_decimal            a number in decimal digits
//     put_two                two numbers up to the end of a line
//     put_line               the line of an event
ghost use Rattle.std.specs.Prelude.{◌≡◌, ◌∷◌, [], ◌≤◌, length};
ghost use Rattle.text.specs.Text.{decimal, two_text, line_text};
ghost use Rattle.text.specs.Writer.{Room, Puts};

use crate::counter::Counter;
use crate::put_bytes;
use itoa::write_digits;

#[derive(Drop)]
pub(crate) struct Writer<'a> {
    out: &'a mut [u8],
    len: usize,
}

// How many digits a number has. The powers of ten are compared with a tenth of it, so that each has 64 bits. With `ilog10` in the place of the loop a line took half as
// long again.
fn decimal_places(n: u64) -> usize
    ensures { result ≡ length (decimal n) }
{
    let tens = n / 10;
    let mut places = 1;
    let mut power = 1;
    while power <= tens {
        power = power * 10;
        places += 1;
    }
    places
}

impl<'a> Writer<'a> {
    pub(crate) fn new(out: &'a mut [u8]) -> Writer<'a>
        ensures same { result.out.ghost_name ≡ out.entry.ghost_name }
        ensures out { result.out.now ≡ out.old }
        ensures len { result.len ≡ 0 }
    {
        Writer { out, len: 0 }
    }

    pub(crate) fn len(&self) -> usize
        ensures { result ≡ self.now.len }
    {
        self.len
    }

    pub(crate) fn put(&mut self, bytes: &[u8])
        requires { Room self.old (length bytes.now) }
        ensures { Puts self.old bytes.now self.new }
    {
        self.len = put_bytes(self.out, self.len, bytes);
    }

    pub(crate) fn put_byte(&mut self, byte: u8)
        requires { Room self.old 1 }
        ensures { Puts self.old (byte ∷ []) self.new }
    {
        self.out[self.len] = byte;
        self.len += 1;
    }

    // A number in decimal digits.
    #[inline(always)]
    pub(crate) fn put_decimal(&mut self, n: u64)
        requires { Room self.old 20 }
        ensures { Puts self.old (decimal n) self.new }
    {
        let end = self.len + decimal_places(n);
        write_digits(n, self.out, end);
        self.len = end;
    }

    // Two numbers up to the end of a line.
    #[inline(always)]
    #[tactic(auto, using(crate::proofs::Digits::decimal_20))]
    pub(crate) fn put_two(&mut self, a: u64, b: u64)
        requires { Room self.old 42 }
        ensures { Puts self.old (two_text a b) self.new }
    {
        self.put_decimal(a);
        self.put_byte(b' ');
        self.put_decimal(b);
        self.put_byte(b'\n');
    }

    // "step, answer number, value". The step's last digit goes by itself, for it was written a moment ago: a processor waits where a longer read goes over it.
    #[tactic(auto, using(crate::proofs::Digits::decimal_20, crate::proofs::Digits::decimal_some))]
    pub(crate) fn put_line(&mut self, step: &Counter, number: u16, value: u16)
        requires { Room self.old 63 }
        ensures { Puts self.old (line_text step.now.number number value) self.new }
    {
        let digits = step.digits();
        let last = digits.len() - 1;
        self.put(&digits[..last]);
        self.put_byte(digits[last]);
        self.put_byte(b' ');
        self.put_two(u64::from(number), u64::from(value));
    }
}
