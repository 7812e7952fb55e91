// Runs hexfloat on a file of cases from standard input and writes what each gives.
//
// A case is a line of 38 bytes, `op mask a b`; an answer a line of 22, `words stop condition`.
#![tactic(auto)]

mod answer;
mod case;

use answer::{line_of, run};
use std::io::Print;
use trial::{Ended, Program};

struct Cases;

impl Program for Cases {
    fn one_case(rt: HostRuntime) -> Result<(), Ended> {
        let line: [u8; 38] = trial::first_line(rt)?;
        let case = case::parse(&line)?;
        rt.stdout().write_all(&line_of(run(case)))?;
        Ok(())
    }
}

fn main(rt: HostRuntime) {
    trial::each_case::<Cases>(rt, b"arithmetic: a line is not of the form `op mask a b`\n");
}
