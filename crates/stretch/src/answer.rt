// What the search answers.
ghost use Rattle.std.specs.Prelude.{◌≡◌};
ghost use Rattle.stretch.specs.Answer.{refusal_number};

use machine::{State, Stop};

// A check of 20, 1, 2 and 3 that does not pass; or a deck or a run that the search is not for, which is a 21.
#[derive(Clone, Copy)]
pub enum Refusal {
    Stopped(Stop),
    Unsuited,
}

impl From<Refusal> for u8 {
    ghost from_gives = { λ r n. n ≡ refusal_number r };

    fn from(r: Refusal) -> u8 {
        match r {
            Refusal::Stopped(stop) => machine::number(stop),
            Refusal::Unsuited => 21,
        }
    }
}

// The first order of the stretch, its last, which stops, and by what.
#[derive(Clone, Copy)]
pub struct Stretch {
    pub first: u16,
    pub last: u16,
    pub stop: Stop,
}

// With the state, which is as it was.
#[derive(Clone, Copy)]
pub struct Answer {
    pub state: State,
    pub found: Result<Stretch, Refusal>,
}
