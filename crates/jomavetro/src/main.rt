// The program: wiring sheets in TIFF, looked at and laid out anew.
#![tactic(auto)]

use cli::commands::run;
use std::process::ExitCode;

// A refusal was printed where it was met, so nothing is added here but the status.
fn main(rt: HostRuntime) -> ExitCode {
    match run(&rt) {
        Ok(()) => ExitCode::SUCCESS,
        Err(_) => ExitCode::FAILURE,
    }
}
