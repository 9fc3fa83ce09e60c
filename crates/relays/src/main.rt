// The shipped sheet laid out anew: what is printed and the hash of the file written are stored.
#![tactic(auto)]

use cli::commands::run;
use cli::failed::Failed;

// A stored run is a program of its own: the kit runs each program once, on its own arguments and files.
fn main(rt: HostRuntime) -> Result<(), Failed> {
    run(&rt)
}
