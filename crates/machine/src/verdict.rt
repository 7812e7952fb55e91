// What a step or a back step is found to do, or why it is refused.
use crate::change::Change;
use crate::state::Status;
use crate::stop::Stop;

// The change, and the status that stands after it.
#[derive(Clone, Copy)]
pub struct Effect {
    pub change: Change,
    pub status: Status,
}

pub type Verdict = Result<Effect, Stop>;
