use crate::counted::Counted;
use crate::expected::Sector;
use crate::{expected, pictures};
use faults::fault::Fault;
use octets::endian::Endian;
use plans::plan::Plan;
use plans::view::View;
use raster::grid::*;
use std::process::Abort;
use std::test::Fail;
use writer::sectors::fill_sector;

// What stands in a buffer before a sector is filled in.
const BEFORE: u8 = 170;

// The FNV-1a hash of the first n bytes.
fn hash(buffer: &[u8], n: usize) -> u64 {
    buffer
        .iter()
        .take(n)
        .fold(0xcbf29ce484222325u64, |hash, byte| {
            (hash ^ *byte as u64).wrapping_mul(0x100000001b3)
        })
}

// Whether the bytes from the n-th on are as they were before.
fn is_untouched(buffer: &[u8], n: usize) -> bool {
    buffer.iter().skip(n).all(|byte| *byte == BEFORE)
}

fn view(x: u32, y: u32, width: u32, height: u32, turn: u8) -> View {
    let area = Area {
        x,
        y,
        width,
        height,
    };
    View { area, turn }
}

fn no_plan(_fault: Fault) -> Fail {
    Fail::new("no plan")
}

// A draft of what a view shows, at a place.
#[derive(Clone, Copy)]
struct Draft {
    plan: Plan,
    view: View,
    place: u32,
}

impl Draft {
    fn strips(endian: Endian, rows: u32, view: View, place: u32) -> Result<Draft, Fail> {
        let plan = Plan::strips(endian, rows).map_err(no_plan)?;
        Ok(Draft { plan, view, place })
    }

    fn tiles(
        endian: Endian,
        width: u32,
        length: u32,
        view: View,
        place: u32,
    ) -> Result<Draft, Fail> {
        let plan = Plan::tiles(endian, width, length).map_err(no_plan)?;
        Ok(Draft { plan, view, place })
    }

    // Fills a sector in, and answers its length.
    fn fill<G: Grid>(self, grid: &mut G, sector: u32, buffer: &mut [u8; 512]) -> usize {
        fill_sector(grid, self.view, self.plan, self.place, sector, buffer)
    }

    // A sector is these bytes.
    fn fills<G: Grid>(self, rt: &impl Abort, grid: &mut G, sector: u32, bytes: &[u8]) {
        let mut buffer = [BEFORE; 512];
        let count = self.fill(grid, sector, &mut buffer);
        assert_eq!(rt; count, bytes.len());
        assert!(rt; buffer.starts_with(bytes) && is_untouched(&buffer, count));
    }

    // The whole draft is these bytes, which are one sector at most.
    fn is<G: Grid>(self, rt: &impl Abort, grid: &mut G, bytes: &[u8]) {
        self.fills(rt, grid, 0, bytes);
        self.fills(rt, grid, 1, &[]);
        self.fills(rt, grid, u32::MAX, &[]);
    }

    // The sectors of the RGB picture's draft have these lengths and hashes, and ask for so many pixels.
    fn hashes(self, rt: &impl Abort, sectors: &[Sector; 7]) {
        let pixels = pictures::rgb_pixels();
        let mut grid = Counted::new(pictures::rgb(&pixels));
        for (number, sector) in sectors.iter().enumerate() {
            let before = grid.asked();
            let mut buffer = [BEFORE; 512];
            let count = self.fill(&mut grid, number as u32, &mut buffer);
            assert_eq!(rt; count, sector.length);
            assert_eq!(rt; hash(&buffer, count), sector.hash);
            assert!(rt; is_untouched(&buffer, count));
            assert_eq!(rt; grid.asked().saturating_sub(before), sector.asked);
        }
        self.fills(rt, &mut grid, 7, &[]);
    }
}

#[test]
fn grey_in_one_strip(rt: HostRuntime) -> Result<(), Fail> {
    assert_eq!(rt; expected::grey().len(), 172);
    for rows in [2, u32::MAX] {
        let draft = Draft::strips(Endian::Little, rows, view(0, 0, 3, 2, 1), 512)?;
        draft.is(&rt, &mut pictures::grey(), expected::grey());
    }
    Ok(())
}

#[test]
fn grey_in_two_strips(rt: HostRuntime) -> Result<(), Fail> {
    let draft = Draft::strips(Endian::Big, 1, view(0, 0, 3, 2, 1), 512)?;
    draft.is(&rt, &mut pictures::grey(), expected::grey_strips());
    Ok(())
}

#[test]
fn a_part_of_bilevel_turned_right(rt: HostRuntime) -> Result<(), Fail> {
    let draft = Draft::strips(Endian::Big, 4, view(1, 0, 9, 3, 6), 1024)?;
    draft.is(&rt, &mut pictures::lines(), expected::lines());
    Ok(())
}

#[test]
fn bilevel_rows_mirrored(rt: HostRuntime) -> Result<(), Fail> {
    let draft = Draft::strips(Endian::Little, 7, view(0, 1, 10, 2, 2), 512)?;
    draft.is(&rt, &mut pictures::lines(), expected::lines_rows());
    Ok(())
}

#[test]
fn four_bits_upside_down(rt: HostRuntime) -> Result<(), Fail> {
    let draft = Draft::strips(Endian::Little, 2, view(0, 0, 5, 3, 3), 512)?;
    draft.is(&rt, &mut pictures::four(), expected::four());
    Ok(())
}

#[test]
fn rgb_in_tiles(rt: HostRuntime) -> Result<(), Fail> {
    let draft = Draft::tiles(Endian::Little, 16, 16, view(0, 0, 20, 20, 1), 512)?;
    draft.hashes(&rt, &expected::RGB);
    Ok(())
}

#[test]
fn a_part_of_rgb_turned_left_in_tiles(rt: HostRuntime) -> Result<(), Fail> {
    let draft = Draft::tiles(Endian::Big, 16, 32, view(2, 1, 18, 17, 8), 4096)?;
    draft.hashes(&rt, &expected::RGB_TURNED);
    Ok(())
}

#[test]
fn views_of_something_else(rt: HostRuntime) -> Result<(), Fail> {
    let mut grid = Counted::new(pictures::grey());
    for view in [
        view(0, 0, 3, 0, 1),
        view(1, 0, 3, 2, 1),
        view(0, 1, 3, u32::MAX, 1),
        view(0, 0, 3, 2, 0),
        view(0, 0, 3, 2, 9),
    ] {
        let draft = Draft::strips(Endian::Little, 2, view, 512)?;
        draft.fills(&rt, &mut grid, 0, &[]);
    }
    assert_eq!(rt; grid.asked(), 0);
    Ok(())
}

#[test]
fn too_many_segments(rt: HostRuntime) -> Result<(), Fail> {
    let many = Draft::strips(Endian::Little, 1, view(0, 0, 1, 1025, 1), 512)?;
    many.fills(&rt, &mut pictures::column(1025), 0, &[]);
    let most = Draft::strips(Endian::Little, 1, view(0, 0, 1, 1024, 1), 512)?;
    let mut buffer = [BEFORE; 512];
    let count = most.fill(&mut pictures::column(1024), 18, &mut buffer);
    // 6 + 12 × 12 + 16 + 8 × 1,024 bytes before 1,024 pixels
    assert_eq!(rt; count, 150 + 16 + 8192 + 1024 - 18 * 512);
    Ok(())
}
