// The rows of any grid, written at a cursor.
// One loop that takes what to write as a closure would be no plainer: the closure asks the grid and writes, so its contract repeats these.
ghost use Rattle.std.specs.Prelude.{◌≡◌, ℕ, ◌*◌, ◌<◌, true};
ghost use Rattle.raster.specs.Picture.{Picture};
ghost use Rattle.pnm.specs.Cursors.{HasRoom, Wrote};
ghost use Rattle.pnm.specs.Netpbm.{bilevel, pixel_row, black, octet, octet_row, row_bytes, body};
ghost use Rattle.netpbm.specs.Asked.{Asked};

use pnm::cursor::Cursor;
use pnm::format::Format;
use pnm::layout::Layout;
use raster::grid::*;

// The format that a grid is printed in.
pub fn format_of<G: Grid>(grid: &G) -> Format
    ensures { result.kind ≡ (G.picture grid.now).kind }
{
    Format { kind: grid.kind() }
}

// The pixel at a column and a row.
fn sample<G: Grid>(grid: &mut G, column: u32, row: u32) -> u32
    requires column { column < (G.picture grid.old).width }
    requires row { row < (G.picture grid.old).height }
    ensures value { result ≡ (G.picture grid.old).at column row }
    ensures asked { Asked G.picture G.keeps grid.old grid.new }
{
    match grid.pixel(column, row) {
        Ok(v) => v,
        Err(_) => unreachable(),
    }
}

// A row of grey or RGB pixels.
fn put_pixels<G: Grid>(grid: &mut G, row: u32, out: &mut Cursor<'_>)
    requires row { row < (G.picture grid.old).height }
    requires room { HasRoom out.old (pixel_row (G.picture grid.old) row) }
    ensures wrote { Wrote out.old (pixel_row (G.picture grid.old) row) out.new }
    ensures asked { Asked G.picture G.keeps grid.old grid.new }
{
    let format = format_of(grid);
    for column in 0..grid.size().width {
        let v = sample(grid, column, row);
        format.put_pixel(v, out);
    }
}

// A bilevel pixel, 1 for black; 0 past the last column.
fn bit<G: Grid>(grid: &mut G, row: u32, column: u32) -> u8
    requires bilevel { bilevel (G.picture grid.old).kind ≡ true }
    requires row { row < (G.picture grid.old).height }
    ensures value { result ≡ black (G.picture grid.old) row column }
    ensures asked { Asked G.picture G.keeps grid.old grid.new }
{
    if column >= grid.size().width {
        return 0;
    }
    let format = format_of(grid);
    1 - format.grey(sample(grid, column, row))
}

// Eight bilevel pixels, the first in the highest bit.
fn octet<G: Grid>(grid: &mut G, row: u32, place: u32) -> u8
    requires bilevel { bilevel (G.picture grid.old).kind ≡ true }
    requires row { row < (G.picture grid.old).height }
    requires place { 8 * place < (G.picture grid.old).width }
    ensures value { result ≡ octet (G.picture grid.old) row place }
    ensures asked { Asked G.picture G.keeps grid.old grid.new }
{
    let mut value = 0;
    // Each bit asks the grid, which a closure would have to borrow.
    for i in 0..8 {
        value = 2 * value + bit(grid, row, 8 * place + i);
    }
    value
}

// A row of bilevel pixels, eight to a byte.
fn put_octets<G: Grid>(grid: &mut G, row: u32, out: &mut Cursor<'_>)
    requires bilevel { bilevel (G.picture grid.old).kind ≡ true }
    requires row { row < (G.picture grid.old).height }
    requires room { HasRoom out.old (octet_row (G.picture grid.old) row) }
    ensures wrote { Wrote out.old (octet_row (G.picture grid.old) row) out.new }
    ensures asked { Asked G.picture G.keeps grid.old grid.new }
{
    for place in 0..grid.size().width.div_ceil(8) {
        let b = octet(grid, row, place);
        out.put_byte(b);
    }
}

fn put_row<G: Grid>(grid: &mut G, row: u32, out: &mut Cursor<'_>)
    requires row { row < (G.picture grid.old).height }
    requires room { HasRoom out.old (row_bytes (G.picture grid.old) row) }
    ensures wrote { Wrote out.old (row_bytes (G.picture grid.old) row) out.new }
    ensures asked { Asked G.picture G.keeps grid.old grid.new }
{
    match Layout::of(grid.kind()) {
        Layout::Bitmap => put_octets(grid, row, out),
        _ => put_pixels(grid, row, out),
    }
}

pub fn put_body<G: Grid>(grid: &mut G, out: &mut Cursor<'_>)
    requires { HasRoom out.old (body (G.picture grid.old)) }
    ensures wrote { Wrote out.old (body (G.picture grid.old)) out.new }
    ensures asked { Asked G.picture G.keeps grid.old grid.new }
{
    for row in 0..grid.size().height {
        put_row(grid, row, out);
    }
}
