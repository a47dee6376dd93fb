// The program `settle`: it runs the session of the library of that name on standard input and output, and ends with the status that it
// answers.
#![tactic(auto)]

use settle::settle_run;
use std::process::ExitCode;

fn main(rt: HostRuntime) -> ExitCode {
    ExitCode::from(settle_run(&rt))
}
