//! gtyheap once more, so that a run on `:7` is stored too: the header and the script for which this stands are read and run to their end.
#![tactic(auto)]

use gt_run::run_here;
use std::process::ExitCode;

fn main(rt: HostRuntime) -> ExitCode {
    run_here(rt)
}
