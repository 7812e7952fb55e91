// Bits of a byte.
ghost use Rattle.std.specs.Prelude.{◌≡◌, cond, ◌<◌};
ghost use Rattle.protection.specs.Bits.{bit_of, with_bit};

// Bit k.
pub fn bit(b: u8, k: u32) -> u8
    requires { k < 8 }
    ensures { result ≡ bit_of k b }
{
    (b >> k) % 2
}

// The byte with v as bit k; its other bits stay.
pub fn with_bit(b: u8, k: u32, v: bool) -> u8
    requires { k < 8 }
    ensures { result ≡ with_bit k (cond v 1 0) b }
{
    let byte = b as u32;
    let high = byte >> k;
    let low = byte - (high << k);
    (((high / 2 * 2 + v as u32) << k) + low) as u8
}
