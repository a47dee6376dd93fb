// The program `month_starts`: it prints what the library of that name says, and ends with the status that it answers.
#![tactic(auto)]

use month_starts::month_starts_run;
use std::process::ExitCode;

fn main(rt: HostRuntime) -> ExitCode {
    month_starts_run(&rt)
}
