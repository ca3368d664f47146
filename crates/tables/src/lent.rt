// The twelve tables of a pool, lent together. Inner.
//     LentTables     lent to be changed
//     ReadTables     lent to be read

// "lent tables of 16-bit numbers whose lengths must be exact", with the marks of records and links in 64-bit words (document 02, request 9). What stands where is
// decision 2 of docs/DECISIONS.md. That they are tables of a sound pool (`Known`) is a clause of each function and no ghost field here: a fact of what a `&mut` points to has
// to hold again at each write through it, and an event writes several tables one after another.
#[derive(Drop)]
pub struct LentTables<'a> {
    pub used: &'a mut [u64],
    pub counts: &'a mut [u16],
    pub held: &'a mut [u64],
    pub candidates: &'a mut [u64],
    pub makers: &'a mut [u16],
    pub values: &'a mut [u16],
    pub changed: &'a mut [u64],
    pub registers: &'a mut [u16],
    pub snoops: &'a mut [u16],
    pub logs: &'a mut [u16],
    pub history: &'a mut [u16],
    pub lengths: &'a mut [u16],
}

// The same twelve. They are a type of their own, for Rust has no one type for `&` and `&mut`.
#[derive(Clone, Copy)]
pub struct ReadTables<'a> {
    pub used: &'a [u64],
    pub counts: &'a [u16],
    pub held: &'a [u64],
    pub candidates: &'a [u64],
    pub makers: &'a [u16],
    pub values: &'a [u16],
    pub changed: &'a [u64],
    pub registers: &'a [u16],
    pub snoops: &'a [u16],
    pub logs: &'a [u16],
    pub history: &'a [u16],
    pub lengths: &'a [u16],
}

impl LentTables<'_> {
    ghost use Rattle.std.specs.Prelude.{◌≡◌};
    ghost use Rattle.tables.specs.Lent.{contents, seen};

    pub fn to_read(&self) -> ReadTables<'_>
        ensures { seen result ≡ contents self.now }
    {
        ReadTables {
            used: self.used,
            counts: self.counts,
            held: self.held,
            candidates: self.candidates,
            makers: self.makers,
            values: self.values,
            changed: self.changed,
            registers: self.registers,
            snoops: self.snoops,
            logs: self.logs,
            history: self.history,
            lengths: self.lengths,
        }
    }
}
