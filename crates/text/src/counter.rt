// A number whose decimal digits are kept while it is counted up. Inner.
//     Counter      the number, its digits, and how many they are
//     put_digits   the digits of a number
//     new, up      a number; the next one: mostly the last digit alone changes
//     digits       its digits
ghost use Rattle.std.specs.Prelude.{◌≡◌, ◌+◌, ◌≤◌, ◌<◌, length};
ghost use Rattle.text.specs.Text.{decimal, StartsWith};

use crate::writer::Writer;

// The digits are no `ArrayVec`: `itoa` writes them into a slice that has their room, and an `ArrayVec` lends for writing only the bytes that it holds already.
#[derive(Drop)]
pub(crate) struct Counter {
    digits: [u8; 20],
    places: usize,
    number: u32,
    ghost long: { length digits ≡ 20 },
    ghost shown: { StartsWith digits places (decimal number) },
}

// The digits of a number, at the start of a buffer; answers how many they are.
fn put_digits(out: &mut [u8], number: u32) -> usize
    requires { 20 ≤ length out.old }
    ensures { StartsWith out.new result (decimal number) }
{
    let mut w = Writer::new(out);
    w.put_decimal(u64::from(number));
    w.len()
}

impl Counter {
    pub(crate) fn new(number: u32) -> Counter
        ensures { result.number ≡ number }
    {
        let mut digits = [0; 20];
        let places = put_digits(&mut digits, number);
        Counter {
            digits,
            places,
            number,
        }
    }

    pub(crate) fn up(&mut self)
        requires { self.old.number < 4294967295 }
        ensures { self.new.number ≡ self.old.number + 1 }
    {
        let last = self.places - 1;
        let next = self.number + 1;
        if self.digits[last] < b'9' {
            self.digits[last] += 1;
        } else {
            self.places = put_digits(&mut self.digits, next);
        }
        self.number = next;
    }

    pub(crate) fn digits(&self) -> &[u8]
        ensures { result.now ≡ decimal self.now.number }
    {
        &self.digits[..self.places]
    }
}
