// Cases, one after the other, until the input ends or one cannot be answered.
ghost use Rattle.std.specs.Prelude.{◌≡◌, is_ok};
ghost use Rattle.trial.specs.declared.case.Ended.TheVariants.{Output};

use std::io;
use std::io::Print;

/// Why no case follows.
#[derive(Clone, Copy, Debug, PartialEq, Eq)]
pub enum Ended {
    /// The input has no more.
    Input,
    /// A case is not of the form.
    Malformed,
    /// A line was not written.
    Output,
}

impl From<io::Error> for Ended {
    ghost from_gives = { λ _ e. e ≡ Output };

    fn from(_e: io::Error) -> Ended {
        Ended::Output
    }
}

/// A program of the gate: how it reads and answers one case.
pub trait Program {
    fn one_case(rt: HostRuntime) -> Result<(), Ended>;
}

/// Whether another case follows one that was answered so. Where it is not of the form, `complaint` is written on standard
/// error. A caller with a closure loops by this: a function that took the closure would need a `requires`.
pub fn case_follows(rt: HostRuntime, complaint: &[u8], answered: Result<(), Ended>) -> bool
    ensures { result ≡ is_ok answered }
{
    if let Err(why) = answered {
        report(rt, complaint, why);
    }
    answered.is_ok()
}

/// Reads and answers one case of the program after the other, with the same complaint.
pub fn each_case<P: Program>(rt: HostRuntime, complaint: &[u8]) {
    // A proved loop has to end: the turns are more than any run uses up.
    for _ in 0..u64::MAX {
        if let Err(why) = P::one_case(rt) {
            report(rt, complaint, why);
            return;
        }
    }
}

// Of what ends the cases, only one that is not of the form is an error of who wrote them.
fn report(rt: HostRuntime, complaint: &[u8], why: Ended) {
    if why == Ended::Malformed {
        let _ = rt.stderr().write_all(complaint);
    }
}

#[cfg(test)]
mod tests {
    use super::*;

    #[test]
    fn a_closure_keeps_its_own_count(rt: HostRuntime) {
        let mut left = 3u32;
        let mut one_case = |_rt: HostRuntime| {
            left = left.checked_sub(1).ok_or(Ended::Input)?;
            Ok(())
        };
        let mut last = None;
        for turn in 0..9 {
            if !case_follows(rt, b"", one_case(rt)) {
                last = Some(turn);
                break;
            }
        }
        assert_eq!(rt; last, Some(3));
    }

    // What is expected is looked for in standard error: the complaint itself, and an end by the assertion.
    #[test]
    #[should_panic(expected = "a case is not of the form")]
    fn a_malformed_case_is_told_and_is_the_last(rt: HostRuntime) {
        let follows = case_follows(rt, b"a case is not of the form\n", Err(Ended::Malformed));
        assert!(rt; follows, "none follows");
    }
}
