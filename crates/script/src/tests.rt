// Lines of scripts, sound and wrong.
use crate::request::{Pile, Request, parse, request_of};
use crate::words::{NoNumber, Refusal, Wrong};
use octets::endian::Endian;
use plans::pieces::Pieces;
use raster::grid::Area;
use std::alloc::AllocError;
use std::test::Fail;

#[test]
fn blank_lines_and_comments(rt: HostRuntime) -> Result<(), Fail> {
    for line in ["", " \t ", "# open 0", "#open 0"] {
        assert_eq!(rt; parse(rt.alloc(), line), Ok(None));
        assert_eq!(rt; request_of(rt.alloc(), line), Ok(None));
    }
    Ok(())
}

#[test]
fn calls_of_one_word(rt: HostRuntime) -> Result<(), Fail> {
    for (line, asked) in [
        ("arrow", Request::Arrow),
        ("carry", Request::Carry),
        ("rest", Request::Rest),
        ("switch", Request::Switch),
        ("keep", Request::Keep),
        ("scrap", Request::Scrap),
        ("dump", Request::Dump),
    ] {
        assert_eq!(rt; parse(rt.alloc(), line), Ok(Some(asked)));
        assert_eq!(rt; request_of(rt.alloc(), line), Ok(Some(asked)));
    }
    Ok(())
}

#[test]
fn calls_with_numbers(rt: HostRuntime) -> Result<(), Fail> {
    let area = Area {
        x: 1,
        y: 2,
        width: 30,
        height: 40,
    };
    let strips = Pieces::Strips { rows: 7 };
    let tiles = Pieces::Tiles {
        width: 16,
        length: 32,
    };
    for (line, asked) in [
        ("  open \t 3 ", Request::Open(3)),
        ("pixel 1 4294967295", Request::Pixel(1, 4294967295)),
        ("window 1 2 30 40 5000", Request::Window(area, 5000)),
        (
            "begin 1 2 30 40 6 II strips 7",
            Request::Begin(area, 6, Endian::Little, strips),
        ),
        (
            "begin 1 2 30 40 8 MM tiles 16 32",
            Request::Begin(area, 8, Endian::Big, tiles),
        ),
    ] {
        assert_eq!(rt; parse(rt.alloc(), line), Ok(Some(asked)));
        assert_eq!(rt; request_of(rt.alloc(), line), Ok(Some(asked)));
    }
    Ok(())
}

#[test]
fn cards(rt: HostRuntime) -> Result<(), Fail> {
    for (line, asked) in [
        ("card a.tif 4096", Request::Card("a.tif", 4096, Pile::Plain)),
        ("card a.tif 1 hold", Request::Card("a.tif", 1, Pile::Hold)),
        (
            "card a.tif 1 hold hold",
            Request::Card("a.tif", 1, Pile::HoldHold),
        ),
        (
            "card a.tif 1 tray 2 3",
            Request::Card("a.tif", 1, Pile::Tray(2, 3)),
        ),
        (
            "card a.tif 1 hold tray 2 3",
            Request::Card("a.tif", 1, Pile::HoldTray(2, 3)),
        ),
        (
            "card a.tif 1 tray 2 3 hold",
            Request::Card("a.tif", 1, Pile::TrayHold(2, 3)),
        ),
    ] {
        assert_eq!(rt; parse(rt.alloc(), line), Ok(Some(asked)));
        assert_eq!(rt; request_of(rt.alloc(), line), Ok(Some(asked)));
    }
    Ok(())
}

#[test]
fn words_that_are_no_numbers(rt: HostRuntime) -> Result<(), Fail> {
    for (line, word) in [
        ("open page", "page"),
        ("pixel 4294967296 0", "4294967296"),
        ("window 0 0 1 -1 8", "-1"),
        ("begin 0 0 1 1 one MM strips 1", "one"),
        ("begin 0 0 1 1 1 MM strips few", "few"),
        ("card sheet.tif 1 tray 0 x", "x"),
        ("card sheet.tif", ""),
    ] {
        assert_eq!(rt; parse(rt.alloc(), line), Err(Refusal::Number(word)));
        assert_eq!(rt; request_of(rt.alloc(), line), Err(Wrong::Number));
    }
    Ok(())
}

#[test]
fn other_wrong_lines(rt: HostRuntime) -> Result<(), Fail> {
    for (line, refusal) in [
        ("opens 0", Refusal::Call),
        ("open", Refusal::Call),
        ("open 0 1", Refusal::Count),
        ("begin 0 0 1 1 1 XX strips 1", Refusal::Choice),
        ("card sheet.tif 1 box", Refusal::Choice),
    ] {
        assert_eq!(rt; parse(rt.alloc(), line), Err(refusal));
        assert_eq!(rt; request_of(rt.alloc(), line), Err(Wrong::from(refusal)));
    }
    Ok(())
}

#[test]
fn refusals(rt: HostRuntime) -> Result<(), Fail> {
    assert_eq!(rt; Refusal::from(AllocError), Refusal::Memory);
    assert_eq!(rt; Refusal::from(NoNumber("x")), Refusal::Number("x"));
    assert_eq!(rt; Refusal::from(Wrong::Number), Refusal::Number(""));
    for wrong in [
        Wrong::Memory,
        Wrong::Call,
        Wrong::Count,
        Wrong::Number,
        Wrong::Choice,
    ] {
        let refusal = Refusal::from(wrong);
        assert_eq!(rt; Wrong::from(refusal), wrong);
        let told = format!(in rt.alloc(); "{refusal}")?;
        let short = format!(in rt.alloc(); "{wrong}")?;
        assert_eq!(rt; told.as_str(), short.as_str());
    }
    Ok(())
}
