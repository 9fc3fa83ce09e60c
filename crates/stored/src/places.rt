// Where a pixel lies: under the orientation, and in its segment.
ghost use Rattle.std.specs.Prelude.{◌≡◌, ◌<◌};
ghost use Rattle.stored.specs.Pixels.{segment_of, first_sample};
ghost use Rattle.stored.specs.Reading.{start_of};
ghost use Rattle.stored.specs.Sane.{Sane};

use pages::geometry::samples_of;
use pages::layout::Layout;
pub use raster::turn::{column_below, row_below, swaps};

// The segment in which the pixel at column x, row y lies.
pub fn segment_of(layout: &Layout, x: u32, y: u32) -> u32
    requires sane { Sane layout.now }
    requires column { x < layout.now.width }
    requires row { y < layout.now.height }
    ensures { result ≡ segment_of layout.now.cut layout.now.width x y }
{
    let cut = layout.cut;
    let across = cut.across(layout.width) as u32;
    y / cut.high * across + x / cut.wide
}

// Which sample of its row is the first of the pixel at column x.
pub fn first_sample(layout: &Layout, x: u32) -> u32
    requires { Sane layout.now }
    ensures { result ≡ first_sample layout.now x }
{
    x % layout.cut.wide * samples_of(layout.kind) as u32
}

// How far into its segment the bytes of the pixel at column x, row y begin.
pub fn start_of(layout: &Layout, x: u32, y: u32) -> u64
    requires { Sane layout.now }
    ensures { result ≡ start_of layout.now x y }
{
    let row = layout.cut.row_bytes(layout.kind);
    let per = 8 / layout.kind.bits as u32;
    (y % layout.cut.high) as u64 * row + (first_sample(layout, x) / per) as u64
}
