// Lines of output.
ghost use Rattle.std.specs.Prelude.{◌≡◌, IfErr};
ghost use Rattle.trial.specs.declared.case.Ended.TheVariants.{Output};

use crate::case::Ended;
use std::fmt::Display;
use std::io::{Cursor, Print, Write};

// Room for the longest line, a call's with both seats, which has at most 530 bytes.
const ROOM: usize = 576;

/// Writes a line of some bytes, what is shown and a line feed, by one write, so that a full pipe has no part of it alone;
/// none of it where it has no room.
pub(crate) fn write_line<D: Display + Drop>(
    rt: HostRuntime,
    bytes: &[u8],
    shown: D,
) -> Result<(), Ended>
    ensures { IfErr result (λ why. why ≡ Output) }
{
    let mut line = Cursor::new([0u8; ROOM]);
    line.write_all(bytes)?;
    line.writeln(shown)?;
    let size = line.position() as usize;
    let line = line.get_ref().get(..size).ok_or(Ended::Output)?;
    rt.stdout().write_all(line)?;
    Ok(())
}
