// How a page is cut into strips or tiles.
ghost use Rattle.std.specs.Prelude.{◌≡◌, ◌+◌, ◌-◌, ◌*◌, ◌^◌, ◌<◌, min};
ghost use Rattle.octets.specs.Rows.{ceil};
ghost use Rattle.pages.specs.Pages.{page_side, tile_side};
ghost use Rattle.pages.specs.Geometry.{samples_of, across, segments, segments_of, first_row, rows_of, row_bytes, needed};

use crate::layout::*;
use raster::grid::{Kind, Photometric};

// The samples of a pixel.
pub fn samples_of(kind: Kind) -> u8
    ensures { result ≡ samples_of kind }
{
    match kind.photometric {
        Photometric::WhiteIsZero | Photometric::BlackIsZero => 1,
        Photometric::Rgb => 3,
    }
}

// Whether a page may have such a side.
pub fn is_page_side(side: u32) -> bool
    ensures { result ≡ page_side side }
{
    (1..=16384).contains(&side)
}

// Whether a tile may have such a side.
pub fn is_tile_side(side: u32) -> bool
    ensures { result ≡ tile_side side }
{
    (16..=16384).contains(&side) && side % 16 == 0
}

// How many parts of a size cover a length: none of size 0.
fn parts(length: u32, size: u32) -> u64
    ensures value { result ≡ ceil length size }
    ensures few { result < 2 ^ 32 }
{
    if size == 0 {
        0
    } else {
        length.div_ceil(size) as u64
    }
}

impl Cut {
    // How many segments stand side by side.
    pub fn across(self, width: u32) -> u64
        ensures value { result ≡ across self width }
        ensures few { result < 2 ^ 32 }
    {
        parts(width, self.wide)
    }

    // How many segments there are.
    #[tactic(auto, unfolding(crate::specs::Geometry::segments))]
    pub fn segments(self, width: u32, height: u32) -> u64
        ensures { result ≡ segments self width height }
    {
        parts(height, self.high) * self.across(width)
    }

    // The row of the page at which segment k begins.
    pub fn first_row(self, width: u32, k: u32) -> u64
        ensures { result ≡ first_row self width k }
    {
        let row = (k as u64).checked_div(self.across(width)).unwrap_or(0);
        row * self.high as u64
    }

    // The rows of segment k.
    pub fn rows(self, width: u32, height: u32, k: u32) -> u64
        ensures { result ≡ rows_of self width height k }
    {
        let high = self.high as u64;
        match self.kind {
            SegmentKind::Strip => {
                high.min((height as u64).saturating_sub(self.first_row(width, k)))
            }
            SegmentKind::Tile => high,
        }
    }

    // The bytes of a segment's row.
    pub fn row_bytes(self, kind: Kind) -> u64
        ensures { result ≡ row_bytes self kind }
    {
        (self.wide as u64 * samples_of(kind) as u64 * kind.bits as u64).div_ceil(8)
    }
}

impl Layout {
    // How many segments the page has.
    pub fn segments(self) -> u64
        ensures { result ≡ segments_of self }
    {
        self.cut.segments(self.width, self.height)
    }

    // The bytes that segment k needs, or the largest number if they are more.
    #[tactic(auto, unfolding(crate::specs::Geometry::needed))]
    pub fn needed(self, k: u32) -> u64
        ensures { result ≡ min (needed self k) (2 ^ 64 - 1) }
    {
        let rows = self.cut.rows(self.width, self.height, k);
        rows.saturating_mul(self.cut.row_bytes(self.kind))
    }
}
