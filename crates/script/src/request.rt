// A line of a script.
ghost use Rattle.script.specs.Lines.{SilentAsksNothing};

use crate::words::{NoNumber, Refusal, Wrong, area_of, number};
use octets::endian::Endian;
use plans::pieces::Pieces;
use raster::grid::Area;
use std::alloc::{AllocError, Global};

// The layers over a card, outermost first.
#[derive(Clone, Copy, PartialEq, Eq, Debug)]
pub enum Pile {
    Plain,
    Hold,
    Tray(u32, u32),
    HoldTray(u32, u32),
    TrayHold(u32, u32),
    HoldHold,
}

// What a line asks for.
#[derive(Clone, Copy, PartialEq, Eq, Debug)]
pub enum Request<'a> {
    // A new card of so many bytes from a file, and a new holder over a pile.
    Card(&'a str, u32, Pile),
    Open(u32),
    Pixel(u32, u32),
    // A window into a buffer of so many bytes.
    Window(Area, u32),
    Arrow,
    Begin(Area, u32, Endian, Pieces),
    Carry,
    Rest,
    Switch,
    Keep,
    Scrap,
    Dump,
}

// The layers that some words name.
fn pile_of<'a, W: From<NoNumber<'a>> + From<Wrong>>(words: &[&'a str]) -> Result<Pile, W> {
    match words {
        [] => Ok(Pile::Plain),
        ["hold"] => Ok(Pile::Hold),
        ["hold", "hold"] => Ok(Pile::HoldHold),
        ["hold", "tray", from, len] => Ok(Pile::HoldTray(number(from)?, number(len)?)),
        ["hold", "tray", ..] => Err(Wrong::Count.into()),
        ["tray", from, len] => Ok(Pile::Tray(number(from)?, number(len)?)),
        ["tray", from, len, "hold"] => Ok(Pile::TrayHold(number(from)?, number(len)?)),
        ["tray", _, _, "hold", ..] => Err(Wrong::Count.into()),
        _ => Err(Wrong::Choice.into()),
    }
}

// The byte order that a word names.
pub fn order_of(word: &str) -> Result<Endian, Wrong> {
    match word {
        "II" => Ok(Endian::Little),
        "MM" => Ok(Endian::Big),
        _ => Err(Wrong::Choice),
    }
}

// How a draft is cut.
fn pieces_of<'a, W: From<NoNumber<'a>> + From<Wrong>>(words: &[&'a str]) -> Result<Pieces, W> {
    match words {
        ["strips", rows] => Ok(Pieces::Strips {
            rows: number(rows)?,
        }),
        ["tiles", width, length] => Ok(Pieces::Tiles {
            width: number(width)?,
            length: number(length)?,
        }),
        ["strips" | "tiles", ..] => Err(Wrong::Count.into()),
        _ => Err(Wrong::Choice.into()),
    }
}

// A call that takes words after its name.
fn asked<'a, W: From<NoNumber<'a>> + From<Wrong>>(words: &[&'a str]) -> Result<Request<'a>, W> {
    match words {
        ["card", name, length, pile @ ..] => {
            Ok(Request::Card(*name, number(length)?, pile_of::<W>(pile)?))
        }
        ["card", ..] => Err(Wrong::Number.into()),
        ["open", page] => Ok(Request::Open(number(page)?)),
        ["pixel", x, y] => Ok(Request::Pixel(number(x)?, number(y)?)),
        ["window", x, y, width, height, length] => {
            Ok(Request::Window(area_of(x, y, width, height)?, number(length)?))
        }
        ["open" | "pixel" | "window", ..] => Err(Wrong::Count.into()),
        ["begin", x, y, width, height, turn, order, cut @ ..] => {
            let order = order_of(order)?;
            let cut = pieces_of::<W>(cut)?;
            Ok(Request::Begin(area_of(x, y, width, height)?, number(turn)?, order, cut))
        }
        ["begin", ..] => Err(Wrong::Choice.into()),
        _ => Err(Wrong::Call.into()),
    }
}

// A call that takes none.
fn bare<'a>(name: &str) -> Result<Request<'a>, Wrong> {
    match name {
        "arrow" => Ok(Request::Arrow),
        "carry" => Ok(Request::Carry),
        "rest" => Ok(Request::Rest),
        "switch" => Ok(Request::Switch),
        "keep" => Ok(Request::Keep),
        "scrap" => Ok(Request::Scrap),
        "dump" => Ok(Request::Dump),
        _ => Err(Wrong::Call),
    }
}

// What a line asks for, which is nothing where it is blank or a comment; W tells what is wrong with it.
fn read_line<'a, W: From<NoNumber<'a>> + From<Wrong> + From<AllocError>>(
    heap: Global,
    line: &'a str,
) -> Result<Option<Request<'a>>, W>
    ensures { SilentAsksNothing line.now result }
{
    let words: Vec<&'a str> = line.split_whitespace().collect(heap)?;
    match words.as_slice() {
        [] => Ok(None),
        [name, ..] if name.starts_with("#") => Ok(None),
        [name] => Ok(Some(bare(name)?)),
        words => Ok(Some(asked::<W>(words)?)),
    }
}

// What a line asks for, or what is wrong with it, which names the word that is no number.
pub fn parse<'a>(heap: Global, line: &'a str) -> Result<Option<Request<'a>>, Refusal<'a>>
    ensures { SilentAsksNothing line.now result }
{
    read_line::<Refusal<'a>>(heap, line)
}

// What a line asks for, or what is wrong with it, which keeps nothing of the line.
pub fn request_of<'a>(heap: Global, line: &'a str) -> Result<Option<Request<'a>>, Wrong>
    ensures { SilentAsksNothing line.now result }
{
    read_line::<Wrong>(heap, line)
}
