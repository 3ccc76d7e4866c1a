//! pipeflex once more, for the stored run of a text that is refused: nothing on the standard output, and
//! its exit status.
#![tactic(auto)]

use pipeflex_top::run_process;
use std::process::ExitCode;

fn main(rt: HostRuntime) -> ExitCode {
    run_process(&rt, &rt)
}
