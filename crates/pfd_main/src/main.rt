//! The program: a `main` over `pfd`, which has all of it.
#![tactic(auto)]

use std::process::ExitCode;

fn main(rt: HostRuntime) -> ExitCode {
    ExitCode::from(pfd::run_process(&rt, &rt))
}
