//! The program gtyheap: the arguments, the machine's files and its standard output, handed to the one call that does the work.
#![tactic(auto)]

use gt_run::run_here;
use std::process::ExitCode;

fn main(rt: HostRuntime) -> ExitCode {
    run_here(rt)
}
