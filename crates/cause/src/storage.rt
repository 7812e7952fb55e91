// The addresses of S that checks 6 and 7 refuse.
ghost use Rattle.std.specs.Prelude.{◌≡◌, ◌+◌, ◌<◌};
ghost use Rattle.protection.specs.Form.{is_protected};
ghost use Rattle.protection.specs.Bits.{bitwise};
ghost use Rattle.cause.specs.Storage.{lowest, is_absent};

// The lowest of n addresses from `at` on that is past the end of memory: the first past it, or `at`.
pub fn lowest_absent(at: u32, n: u32, memory: usize) -> u32
    requires { at + n < 0x100000000 }
    ensures { result ≡ lowest (is_absent memory) at n }
{
    if memory <= at as usize {
        return at;
    }
    let end = at + n;
    if memory < end as usize {
        return memory as u32;
    }
    end
}

// The lowest of n addresses from `at` on that is protected, or their end.
pub fn lowest_protected(protect: &[u8], at: u32, n: u32) -> u32
    requires { at + n < 0x100000000 }
    ensures { result ≡ lowest (is_protected (bitwise protect.now)) at n }
{
    let end = at + n;
    (at..end)
        .find(|a| protection::is_protected(protect, *a as usize))
        .unwrap_or(end)
}
