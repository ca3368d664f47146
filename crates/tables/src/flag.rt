// A snoop flag of the table of flags, a number for each. Inner.
ghost use Rattle.std.specs.Prelude.{◌≡◌, ◌<◌, length, get_or, set};
ghost use Rattle.rules.specs.View.{bit};
ghost use Rattle.tables.specs.Lie.{is_on};

pub fn is_flagged(flags: &[u16], place: usize) -> bool
    requires { place < length flags.now }
    ensures { result ≡ is_on (get_or flags.now place 0) }
{
    flags[place] != 0
}

pub fn set_flag(flags: &mut [u16], place: usize, on: bool)
    requires { place < length flags.old }
    ensures { flags.new ≡ set flags.old place (bit on) }
{
    flags[place] = u16::from(on);
}
