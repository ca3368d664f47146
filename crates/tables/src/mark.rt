// Marks in words of 64 bits, "lowest number in the lowest bit" (document 02, request 9), whatever their kind: used, held, candidate or changed. Inner.
//     is_on, set_mark       one mark; has_bit, with_bit: in its word
//     marks_from            some marks one after another, as a word
//     first_off, count_off  the first mark that is off, and how many are
//     word_of               a word of 64 tests
//     mark_standing, keep_standing     the marks where a number stands, by whole words; standing: one word; join_standing: a word at a time
ghost use Rattle.std.specs.Prelude.{◌≡◌, false, ℕ, ◌+◌, ◌-◌, ◌*◌, ◌≤◌, ◌<◌, length, get_or, drop, set};
ghost use Rattle.tables.specs.Bits.{digits, number, bits_of, word_count, mark_at, marked, first_off, ones_of, stands, with_standing, only_standing};

pub fn has_bit(word: u64, place: usize) -> bool
    requires { place < 64 }
    ensures { result ≡ get_or (digits 64 word) place false }
{
    (word >> place) & 1 == 1
}

fn with_bit(word: u64, place: usize, on: bool) -> u64
    requires { place < 64 }
    ensures { digits 64 result ≡ set (digits 64 word) place on }
{
    let mask = 1u64 << place;
    if on {
        return word | mask;
    }
    word & !mask
}

#[tactic(auto, using(crate::proofs::Words::bit_here))]
pub fn is_on(words: &[u64], place: usize) -> bool
    requires { place < length words.now * 64 }
    ensures { result ≡ mark_at words.now place }
{
    has_bit(words[place / 64], place % 64)
}

pub fn set_mark(words: &mut [u64], place: usize, on: bool)
    requires { place < length words.old * 64 }
    ensures { words.new ≡ marked words.old place on }
{
    let at = place / 64;
    words[at] = with_bit(words[at], place % 64, on);
}

// Some marks one after another, in the lowest bits of a word: they stand in one word or in two.
pub fn marks_from(words: &[u64], from: usize, many: usize) -> u64
    requires { (length words.now ≤ 1024) × (1 ≤ many) × (many ≤ 64) × (from + many ≤ length words.now * 64) }
    ensures { (i : ℕ) → i < many → get_or (digits 64 result) i false ≡ mark_at words.now (from + i) }
{
    let at = from / 64;
    let first = from % 64;
    let low = words[at] >> first;
    if first + many <= 64 {
        return low;
    }
    low | (words[at + 1] << (64 - first))
}

// The first mark from a place on that is off, read off a whole word as the trailing zeros of its complement; behind the last word where none is.
// Some bits of the first word alone are passed over: a `find_map` has to ask of each word whether it is that one, and was slower over 16 words.
pub fn first_off(words: &[u64], from: usize) -> usize
    requires { (length words.now ≤ 1024) × (from ≤ length words.now * 64) }
    ensures { result ≡ from + first_off (drop from (bits_of words.now)) }
{
    let mut passed = (1u64 << (from % 64)) - 1;
    for i in from / 64..words.len() {
        // At most 64: no `From` makes a place of it.
        let zeros = (!(words[i] | passed)).trailing_zeros() as usize;
        if zeros < 64 {
            return i * 64 + zeros;
        }
        passed = 0;
    }
    words.len() * 64
}

// "the number of free records comes from the number of ones" (document 02, request 9): n less the ones, whatever words these are.
#[tactic(auto, using(crate::proofs::Searched::ones_next, crate::proofs::Searched::none_left))]
pub fn count_off(words: &[u64], n: u16) -> u16
    ensures { result ≡ n - ones_of (bits_of words.now) }
{
    let mut off = n;
    for word in words {
        // However many words there are, those behind the last free one are not looked at.
        if off == 0 {
            return 0;
        }
        off = off.saturating_sub(word.count_ones() as u16);
    }
    off
}

// A word of 64 tests, the lowest bit for place 0, without a branch: two halves side by side.
pub fn word_of<F: Fn(usize) -> bool>(test: F) -> u64
    requires { (i : ℕ) → i < 64 → F.pre test i }
    ensures { (i : ℕ) → i < 64 → F.post test i (get_or (digits 64 result) i false) }
{
    let mut low = 0u32;
    let mut high = 0u32;
    for i in 0..32 {
        low |= u32::from(test(i)) << i;
        high |= u32::from(test(i + 32)) << i;
    }
    u64::from(low) | u64::from(high) << 32
}

// The word of the first 64 places, or of as many as there are: those at which a number stands. `word_of` is for 64, and the last places are mostly fewer.
fn standing(numbers: &[u16], x: u16) -> u64
    ensures { result ≡ number 64 (stands x numbers.now) }
{
    if 64 <= numbers.len() {
        return word_of(|i| numbers[i] == x);
    }
    let mut word = 0;
    for (i, n) in numbers.iter().enumerate() {
        word |= u64::from(*n == x) << i;
    }
    word
}

// Each word, joined with the word of the places at which a number stands. The words and the numbers are two of the tables that are lent: a struct of both, with the clause
// of these three functions in it, would be made for them alone.
fn join_standing<F: Fn(u64, u64) -> u64>(words: &mut [u64], numbers: &[u16], x: u16, join: F)
    requires { (length words.old ≤ 1024) × (length words.old ≡ word_count (length numbers.now)) × F.IsAlwaysCallable join }
    ensures { (i : ℕ) → i < length words.old → F.post join (get_or words.old i 0) (number 64 (stands x (drop (i * 64) numbers.now))) (get_or words.new i 0) }
{
    for (i, word) in words.iter_mut().enumerate() {
        *word = join(*word, standing(&numbers[i * 64..], x));
    }
}

// The marks where a number stands, on.
pub fn mark_standing(words: &mut [u64], numbers: &[u16], x: u16)
    requires { (length words.old ≤ 1024) × (length words.old ≡ word_count (length numbers.now)) }
    ensures { words.new ≡ with_standing x numbers.now words.old }
{
    join_standing(words, numbers, x, |marks, here| marks | here);
}

// The marks where another number stands, off.
pub fn keep_standing(words: &mut [u64], numbers: &[u16], x: u16)
    requires { (length words.old ≤ 1024) × (length words.old ≡ word_count (length numbers.now)) }
    ensures { words.new ≡ only_standing x numbers.now words.old }
{
    join_standing(words, numbers, x, |marks, here| marks & here);
}
