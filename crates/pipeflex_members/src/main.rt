//! pipeflex once more, for the stored run of a member table.
#![tactic(auto)]

use pipeflex_top::run_process;
use std::process::ExitCode;

fn main(rt: HostRuntime) -> ExitCode {
    run_process(&rt, &rt)
}
