// The words of a call of the program, and what they start.
use crate::failed::Failed;
use crate::files::{load, load_text};
use crate::info::print_info;
use crate::relay::relay;
use crate::replay::print_script;
use crate::window::write_window;
use crate::wishes::{area_by, number_by, wish_of};
use std::env;

// The sheet that a call with no words looks for in the current folder.
const SHEET: &str = "sheet.tif";

const USAGE: &str = "usage:
  jomavetro info FILE
      the pages of a TIFF file, each with its size, kind and layout, or why it is refused
  jomavetro window FILE PAGE X Y WIDTH HEIGHT OUT
      a rectangle of a page as a Netpbm picture; OUT is a file, or - for the standard output
  jomavetro relay FILE OUT II|MM strips ROWS [view X Y WIDTH HEIGHT] [turn K]
  jomavetro relay FILE OUT II|MM tiles WIDTH LENGTH [view X Y WIDTH HEIGHT] [turn K]
      lays page 0 out anew in place, and writes what the card then holds to OUT
  jomavetro replay SCRIPT
      runs a script of calls, and prints each with its answer
With no argument: info sheet.tif";

// Says how to call the program.
fn wrong_call(rt: &HostRuntime) -> Result<(), Failed> {
    eprintln!(rt; "{USAGE}")?;
    Err(Failed::Call)
}

fn info(rt: &HostRuntime, name: &str) -> Result<(), Failed> {
    let bytes = load(rt, name)?;
    print_info(rt, name, bytes.as_slice())
}

fn replay(rt: &HostRuntime, name: &str) -> Result<(), Failed> {
    let text = load_text(rt, name)?;
    print_script(rt, text.as_str())
}

// Lays a page out anew as some words wish.
fn relay_by(rt: &HostRuntime, name: &str, out: &str, words: &[&str]) -> Result<(), Failed> {
    match wish_of(rt, words) {
        Err(Failed::Call) => wrong_call(rt),
        wish => relay(rt, name, out, wish?),
    }
}

// Runs the command that some words name.
fn start(rt: &HostRuntime, words: &[&str]) -> Result<(), Failed> {
    match words {
        [] => info(rt, SHEET),
        ["--help" | "help", ..] => {
            println!(rt; "{USAGE}")?;
            Ok(())
        }
        ["info", name] => info(rt, name),
        ["window", name, page, x, y, width, height, out] => {
            let page = number_by(rt, page)?;
            let area = area_by(rt, x, y, width, height)?;
            write_window(rt, name, page, area, out)
        }
        ["relay", name, out, wish @ ..] => relay_by(rt, name, out, wish),
        ["replay", name] => replay(rt, name),
        _ => wrong_call(rt),
    }
}

// Runs the command that the arguments name.
pub fn run(rt: &HostRuntime) -> Result<(), Failed> {
    let words: Vec<String> = env::args(rt)?.skip(1).collect(rt.alloc())?;
    let words: Vec<&str> = words.iter().map(|word| word.as_str()).collect(rt.alloc())?;
    start(rt, words.as_slice())
}
