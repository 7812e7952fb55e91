// Input by lines, and by texts of a known length.
ghost use Rattle.std.specs.Prelude.{◌≡◌, ◌⊎◌, IfOk, IfErr, length};
ghost use Rattle.trial.specs.declared.case.Ended.TheVariants.{Input, Malformed};

use crate::case::Ended;
use stream::read_all;

/// Fills the space with the bytes that follow in a case.
pub fn read_bytes(rt: HostRuntime, space: &mut [u8]) -> Result<(), Ended>
    ensures { IfErr result (λ why. why ≡ Malformed) }
{
    let got = read_all(&mut rt.stdin(), space).count;
    if got == space.len() {
        Ok(())
    } else {
        Err(Ended::Malformed)
    }
}

/// The same for the bytes of a line, and the line feed that ends it.
pub fn read_line(rt: HostRuntime, space: &mut [u8]) -> Result<(), Ended>
    ensures { IfErr result (λ why. why ≡ Malformed) }
{
    read_bytes(rt, space)?;
    let mut end = [0u8; 1];
    read_bytes(rt, &mut end)?;
    if end[0] == b'\n' {
        Ok(())
    } else {
        Err(Ended::Malformed)
    }
}

/// A case's first line of N bytes, the last of them its line feed, by one read. The input ends where nothing is left of
/// it, or a read fails.
pub fn first_line<const N: usize>(rt: HostRuntime) -> Result<[u8; N], Ended>
    ensures { IfErr result (λ why. (why ≡ Input) ⊎ (why ≡ Malformed)) }
{
    let mut line = [0u8; N];
    let got = read_all(&mut rt.stdin(), &mut line).count;
    if got == 0 {
        return Err(Ended::Input);
    }
    if got == N && line[N - 1] == b'\n' {
        Ok(line)
    } else {
        Err(Ended::Malformed)
    }
}

/// A text of so many bytes, at the start of the space.
pub fn read_text(rt: HostRuntime, space: &mut [u8], size: usize) -> Result<&[u8], Ended>
    ensures size { IfOk result (λ text. length text.now ≡ size) }
    ensures refused { IfErr result (λ why. why ≡ Malformed) }
{
    let text = space.get_mut(..size).ok_or(Ended::Malformed)?;
    read_bytes(rt, text)?;
    Ok(text)
}
