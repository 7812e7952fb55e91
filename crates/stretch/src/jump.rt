// Jumps anywhere in a deck.
ghost use Rattle.stretch.specs.Jump.{SaysJump};

// Kept: codes as numbers, as in `IsJump`: an order that is not legal counts too.
//
// Whether any order of the deck has the code of JC or JN, reached or not and whatever its other cells are.
pub fn has_jump(deck: &[u16]) -> bool
    ensures { SaysJump deck.now result }
{
    (0..deck.len() / 4).any(|i| deck[i * 4] == 20 || deck[i * 4] == 21)
}
