//! pipeflex: flexibility analysis of process piping, with proved answers.
#![tactic(auto)]

use pipeflex_top::run_process;
use std::process::ExitCode;

fn main(rt: HostRuntime) -> ExitCode {
    run_process(&rt, &rt)
}
