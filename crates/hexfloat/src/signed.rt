// Signed numbers by a sign and a magnitude (8.2).
ghost use Rattle.std.specs.Prelude.{◌≡◌, ◌+◌, ◌<◌, ◌^◌};
ghost use Rattle.hexfloat.specs.Add.{signed};
ghost use Rattle.hexfloat.specs.Compare.{above, below};

#[derive(Clone, Copy)]
pub struct Signed {
    pub sign: u32,
    pub magnitude: u64,
}

// What a number is above zero, and what it is below it.
fn sides(sign: u32, m: u64) -> (u64, u64)
    ensures { (result.0 ≡ above sign m) × (result.1 ≡ below sign m) }
{
    if sign == 0 { (m, 0) } else { (0, m) }
}

// What is p above zero and n below it.
fn balance(p: u64, n: u64) -> Signed
    ensures { result ≡ signed p n }
{
    if p < n {
        return Signed {
            sign: 1,
            magnitude: n - p,
        };
    }
    Signed {
        sign: 0,
        magnitude: p - n,
    }
}

// The sum of a number of sign s and one of sign t.
pub fn signed_sum(s: u32, a: u64, t: u32, b: u64) -> Signed
    requires { (a < 2 ^ 63) × (b < 2 ^ 63) }
    ensures { result ≡ signed (above s a + above t b) (below s a + below t b) }
{
    let (above, below) = sides(s, a);
    let (more_above, more_below) = sides(t, b);
    balance(above + more_above, below + more_below)
}
