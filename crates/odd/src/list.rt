// Lists of which the first elements are given.
ghost use Rattle.std.specs.Prelude.{◌<◌, ◌≤◌};

use trial::Ended;

/// The first 32 elements of a list, or all if fewer.
pub fn first<T>(list: &[T]) -> &[T] {
    list.get(..32).unwrap_or(list)
}

/// Reads those of a list of that size, a line with so many digits for each and nothing between.
pub fn read_first<T: TryFrom<u32> + Drop>(
    rt: HostRuntime,
    list: &mut [T],
    size: usize,
    digits: usize,
) -> Result<(), Ended>
where
    T::Error: Drop,
    requires { (0 < digits) × (digits ≤ 8) }
{
    let mut space = [0u8; 256];
    let line = &mut space[..size.min(32) * digits];
    trial::read_line(rt, line)?;
    for (element, text) in list.iter_mut().zip(line.chunks_exact(digits)) {
        let value = trial::number(16, text)?;
        *element = T::try_from(value).map_err(|_| Ended::Malformed)?;
    }
    Ok(())
}
