// The pixels of what is seen through a view, asked from the grid below.
ghost use Rattle.std.specs.Prelude.{◌≡◌, ◌+◌, ◌/◌, ◌%◌, ◌<◌, ◌≤◌, true};
ghost use Rattle.raster.specs.Picture.{framed, within};
ghost use Rattle.raster.specs.Views.{column_below, row_below};
ghost use Rattle.plans.specs.Views.{viewed, shows, view_width, view_height};
ghost use Rattle.writer.specs.Painting.{Asked};

use plans::view::View;
use raster::grid::*;
use raster::turn::{column_below, row_below};

// The column and the row of the grid below that a view shows at column x, row y.
pub fn below(view: View, x: u32, y: u32) -> (u32, u32)
    requires columns { view.area.x + view.area.width ≤ 16384 }
    requires rows { view.area.y + view.area.height ≤ 16384 }
    requires column { x < view_width view }
    requires row { y < view_height view }
    ensures column { result.0 ≡ view.area.x + column_below view.turn view.area.width x y }
    ensures row { result.1 ≡ view.area.y + row_below view.turn view.area.height x y }
{
    let area = view.area;
    let column = area.x + column_below(view.turn, area.width, x, y);
    let row = area.y + row_below(view.turn, area.height, x, y);
    (column, row)
}

// The pixel at column x, row y of what is seen through a view, and 0 beyond its edges, where no grid is asked.
pub fn seen_pixel<G: Grid>(grid: &mut G, view: View, x: u32, y: u32) -> u32
    requires { shows (G.picture grid.old) view ≡ true }
    ensures value { result ≡ framed (view_width view) (view_height view) (viewed (G.picture grid.old) view).at x y }
    ensures asked { Asked G.picture G.keeps grid.old grid.new }
{
    if !is_inside(view.size(), x, y) {
        return 0;
    }
    let (column, row) = below(view, x, y);
    grid.pixel(column, row).unwrap()
}

// Whether column x, row y lies inside the sides.
fn is_inside(size: Size, x: u32, y: u32) -> bool
    ensures { result ≡ within size.width size.height x y }
{
    x < size.width && y < size.height
}

// Red, green or blue of a pixel, counted from 0.
// No enum: n is the place of a byte among the three of its pixel, and would first have to be turned into one.
pub fn channel(pixel: u32, n: u32) -> u8
    ensures red { n ≡ 0 → result ≡ pixel / 65536 % 256 }
    ensures green { n ≡ 1 → result ≡ pixel / 256 % 256 }
    ensures blue { n ≡ 2 → result ≡ pixel % 256 }
{
    let [_, red, green, blue] = pixel.to_be_bytes();
    match n {
        0 => red,
        1 => green,
        _ => blue,
    }
}
