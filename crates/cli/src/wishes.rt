// The words of a relay.
use crate::failed::Failed;
use crate::info::accepted;
use faults::fault::Check;
use octets::endian::Endian;
use plans::pieces::Pieces;
use plans::plan::Plan;
use raster::grid::Area;
use script::request::order_of;
use script::words::{NoNumber, area_of, number};

// How page 0 is to be laid out anew: by a plan, of a rectangle or the whole picture, under a turn.
#[derive(Clone, Copy)]
pub struct Wish {
    pub plan: Plan,
    pub area: Option<Area>,
    pub turn: u8,
}

// What words name; a word that is no number is printed, which may fail too.
fn named<T: Drop>(rt: &HostRuntime, found: Result<T, NoNumber>) -> Result<T, Failed> {
    match found {
        Ok(value) => Ok(value),
        Err(NoNumber(word)) => {
            eprintln!(rt; "jomavetro: {word} is no number that fits 32 bits")?;
            Err(Failed::Call)
        }
    }
}

// The number that a word stands for.
pub(crate) fn number_by(rt: &HostRuntime, word: &str) -> Result<u32, Failed> {
    named(rt, number(word))
}

// The rectangle that four words name.
pub(crate) fn area_by(
    rt: &HostRuntime,
    x: &str,
    y: &str,
    width: &str,
    height: &str,
) -> Result<Area, Failed> {
    named(rt, area_of(x, y, width, height))
}

// The byte order that a word names.
fn endian_by(word: &str) -> Result<Endian, Failed> {
    order_of(word).map_err(|_| Failed::Call)
}

// A turn from 1 to 8.
fn turn_of(rt: &HostRuntime, word: &str) -> Result<u8, Failed> {
    match number_by(rt, word)? {
        turn @ 1..=8 => Ok(turn as u8),
        _ => accepted(rt, Err(Check::View.fault())),
    }
}

// The plan that some words begin with, and the words after it.
fn plan_of<'w, 'a>(
    rt: &HostRuntime,
    words: &'w [&'a str],
) -> Result<(Plan, &'w [&'a str]), Failed> {
    match words {
        [order, "strips", rows, rest @ ..] => {
            let endian = endian_by(order)?;
            let rows = number_by(rt, rows)?;
            let plan = Plan::new(endian, Pieces::Strips { rows });
            Ok((accepted(rt, plan)?, rest))
        }
        [order, "tiles", width, length, rest @ ..] => {
            let endian = endian_by(order)?;
            let width = number_by(rt, width)?;
            let length = number_by(rt, length)?;
            let plan = Plan::new(endian, Pieces::Tiles { width, length });
            Ok((accepted(rt, plan)?, rest))
        }
        [_, "tiles", ..] => Err(Failed::Call),
        // Such a third word is named where it is no number, whatever the second is.
        [order, _, size, ..] => {
            endian_by(order)?;
            number_by(rt, size)?;
            Err(Failed::Call)
        }
        _ => Err(Failed::Call),
    }
}

// What some words wish for: a plan, perhaps a rectangle after `view`, and perhaps a turn after `turn`.
pub fn wish_of(rt: &HostRuntime, words: &[&str]) -> Result<Wish, Failed> {
    let (plan, rest) = plan_of(rt, words)?;
    let (area, rest) = match rest {
        ["view", x, y, width, height, rest @ ..] => {
            (Some(area_by(rt, x, y, width, height)?), rest)
        }
        _ => (None, rest),
    };
    let turn = match rest {
        [] => 1,
        ["turn", turn] => turn_of(rt, turn)?,
        _ => return Err(Failed::Call),
    };
    Ok(Wish { plan, area, turn })
}
