// Where lines and values end.
ghost use Rattle.std.specs.Prelude.{◌≡◌, ◌≤◌, length};
ghost use Rattle.decktext.specs.Walk.{Stretch};

// The first place from `from` on, and before `end`, that holds the byte b, or `end`.
pub fn find(text: &[u8], from: usize, end: usize, b: u8) -> usize
    requires { (from ≤ end) × (end ≤ length text.now) }
    ensures { Stretch text.now from end b result }
{
    match text[from..end].iter().position(|x| *x == b) {
        Some(k) => from + k,
        None => end,
    }
}
