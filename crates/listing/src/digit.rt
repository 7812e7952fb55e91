// A digit 0-9 A-F.
// Kept: by hand, as a `format` says nothing of the bytes that it gives, and `listing_of` speaks of each.
ghost use Rattle.std.specs.Prelude.{◌≡◌, ◌<◌};
ghost use Rattle.listing.specs.Digits.{digit};

pub fn hex_digit(d: u32) -> u8
    requires { d < 16 }
    ensures { result ≡ digit d }
{
    if d < 10 {
        b'0' + d as u8
    } else {
        b'A' + (d - 10) as u8
    }
}
