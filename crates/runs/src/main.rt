// Long lists of calls, with drafts, over piles of layers, with the answers of another implementation.
#![tactic(auto)]

use cli::commands::run;
use cli::failed::Failed;

// A stored run is a program of its own: the kit runs each program once, on its own arguments and files.
fn main(rt: HostRuntime) -> Result<(), Failed> {
    run(&rt)
}
