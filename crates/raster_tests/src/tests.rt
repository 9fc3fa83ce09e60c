use crate::{expected, pictures};
use faults::fault::{Check, Fault};
use netpbm::window::window;
use raster::crop::Crop;
use raster::grid::*;
use raster::turn::Turn;
use raster::turns::then;
use sheets::sheet::Sheet;
use std::process::Abort;

// What stands in a buffer before a window is printed into it.
const BEFORE: u8 = 170;

fn area(x: u32, y: u32, width: u32, height: u32) -> Area {
    Area {
        x,
        y,
        width,
        height,
    }
}

// Whether the buffer holds the file, and beyond it what stood there before.
fn holds(buffer: &[u8], file: &[u8]) -> bool {
    buffer
        .strip_prefix(file)
        .is_some_and(|rest| rest.iter().all(|&byte| byte == BEFORE))
}

// Prints into the front of a buffer, so many bytes of it.
fn window_in<G: Grid>(
    grid: &mut G,
    area: Area,
    buffer: &mut [u8],
    room: usize,
) -> Result<usize, Fault> {
    let front = buffer.get_mut(0..room).ok_or(Check::Past.fault())?;
    window(grid, area, front)
}

// In so much room, the answer is this, and the buffer then holds the file.
fn gives<G: Grid>(
    rt: &impl Abort,
    grid: &mut G,
    area: Area,
    room: usize,
    answer: Result<usize, Fault>,
    file: &[u8],
) {
    let mut buffer = [BEFORE; 256];
    let got = window_in(grid, area, &mut buffer, room);
    assert_eq!(rt; got, answer);
    assert!(rt; holds(&buffer, file));
}

// The area prints as the file, also where it just fits; a buffer one byte shorter is refused and left as it was.
fn prints<G: Grid>(rt: &impl Abort, grid: &mut G, area: Area, file: &[u8]) {
    assert!(rt; file.len() > 0);
    gives(rt, grid, area, 256, Ok(file.len()), file);
    gives(rt, grid, area, file.len(), Ok(file.len()), file);
    gives(
        rt,
        grid,
        area,
        file.len() - 1,
        Err(Check::Small.fault()),
        &[],
    );
}

// The whole grid prints as the file.
fn prints_whole<G: Grid>(rt: &impl Abort, grid: &mut G, file: &[u8]) {
    let size = grid.size();
    prints(rt, grid, area(0, 0, size.width, size.height), file);
}

// Under each turn, and under the numbers 0 and 9 that count as turn 1, the picture prints as the file expected.
fn prints_turned<'a, F: Fn(u8) -> &'a [u8]>(rt: &impl Abort, picture: Sheet, expected: F)
    requires { F.IsAlwaysCallable expected }
{
    for k in 0..10 {
        prints_whole(rt, &mut Turn::new(picture, k), expected(k));
    }
}

#[test]
fn grey_turns(rt: HostRuntime) {
    prints_turned(&rt, pictures::grey(), |k| expected::grey(k));
}

#[test]
fn bilevel_turns(rt: HostRuntime) {
    prints_turned(&rt, pictures::lines(), |k| expected::lines(k));
}

#[test]
fn rgb_turns(rt: HostRuntime) {
    prints_turned(&rt, pictures::rgb(), |k| expected::rgb(k));
}

#[test]
fn four_bit_turns(rt: HostRuntime) {
    prints_turned(&rt, pictures::pale(), |k| expected::pale(k));
}

#[test]
fn turns_in_turn(rt: HostRuntime) {
    for a in 0..10 {
        for b in 0..10 {
            let mut turn = Turn::new(Turn::new(pictures::grey(), a), b);
            prints_whole(&rt, &mut turn, expected::grey(then(a, b)));
        }
    }
    assert_eq!(rt; then(2, 6), 7);
    assert_eq!(rt; then(6, 2), 5);
}

#[test]
fn black_and_white(rt: HostRuntime) {
    prints_whole(&rt, &mut pictures::paper(), expected::paper());
    prints_whole(&rt, &mut pictures::white(), expected::white());
}

#[test]
fn windows_of_a_part(rt: HostRuntime) {
    prints(
        &rt,
        &mut pictures::grey(),
        area(1, 1, 3, 2),
        expected::grey_cut(),
    );
    prints(
        &rt,
        &mut pictures::lines(),
        area(1, 0, 9, 3),
        expected::lines_cut(),
    );
    prints(
        &rt,
        &mut pictures::rgb(),
        area(2, 1, 1, 1),
        expected::rgb_cut(),
    );
}

#[test]
fn crops(rt: HostRuntime) {
    let mut grey = Crop::new(pictures::grey(), area(1, 1, 3, 2));
    prints_whole(&rt, &mut grey, expected::grey_cut());
    let mut lines = Crop::new(pictures::lines(), area(1, 0, 9, 3));
    prints_whole(&rt, &mut lines, expected::lines_cut());
    let mut turned = Turn::new(grey, 6);
    prints_whole(&rt, &mut turned, expected::cut_then_turned());
    let below = turned.into_below().into_below();
    let mut cut = Crop::new(Turn::new(below, 6), area(1, 1, 2, 3));
    prints_whole(&rt, &mut cut, expected::turned_then_cut());
}

#[test]
fn refused_windows(rt: HostRuntime) {
    for part in [
        area(0, 0, 0, 3),
        area(0, 0, 5, 0),
        area(0, 0, 6, 3),
        area(0, 0, 5, 4),
        area(1, 0, 5, 3),
        area(0, 1, 5, 3),
        area(u32::MAX, 0, 1, 1),
        area(0, 0, u32::MAX, 1),
    ] {
        let outside = Err(Check::Outside.fault());
        gives(&rt, &mut pictures::grey(), part, 0, outside, &[]);
        gives(&rt, &mut pictures::grey(), part, 256, outside, &[]);
        let mut crop = Crop::new(pictures::grey(), part);
        assert_eq!(rt; crop.size().width, 0);
        assert_eq!(rt; crop.size().height, 0);
        assert_eq!(rt; crop.kind().photometric.number(), 1);
        assert_eq!(rt; crop.kind().bits, 1);
        assert_eq!(rt; crop.pixel(0, 0), Err(Check::Outside.fault()));
    }
}

#[test]
fn pixels(rt: HostRuntime) {
    let mut grey = Turn::new(pictures::grey(), 6);
    assert_eq!(rt; grey.pixel(2, 4), Ok(4));
    assert_eq!(rt; grey.pixel(3, 4), Err(Check::Outside.fault()));
    assert_eq!(rt; grey.pixel(2, 5), Err(Check::Outside.fault()));
    assert_eq!(rt; pictures::rgb().pixel(1, 1), Ok(0x0a141e));
}
