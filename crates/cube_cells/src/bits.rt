//! Numbers by their bits.

ghost use Rattle.std.specs.Prelude.{◌≡◌, ◌+◌, ◌^◌, ◌<◌, if◌then◌else◌};
ghost use Rattle.lists.specs.Bits.{is_set as is_set_in};

// Whether a bit is set.
pub(crate) fn is_set(number: u32, bit: u8) -> bool
    requires { bit < 32 }
    ensures { result ≡ is_set_in number bit }
{
    (number >> bit) & 1 == 1
}

/// A number of the bits below this one, with this one.
pub fn with_bit(number: u32, bit: u8, set: bool) -> u32
    requires bit { bit < 16 }
    requires below { number < 2 ^ bit }
    ensures { result ≡ number + (if set then 2 ^ bit else 0) }
{
    if set { number + (1 << bit) } else { number }
}
