// The file of any grid.
ghost use Rattle.std.specs.Prelude.{◌≡◌, length};
ghost use Rattle.pnm.specs.Cursors.{HasRoom, Wrote};
ghost use Rattle.pnm.specs.Netpbm.{printed};
ghost use Rattle.netpbm.specs.Asked.{Asked};

use crate::rows::{format_of, put_body};
use pnm::cursor::Cursor;
use pnm::layout::Layout;
use raster::grid::*;

// The bytes of a grid's file.
pub fn file_len<G: Grid>(grid: &G) -> usize
    ensures { result ≡ length (printed (G.picture grid.now)) }
{
    let format = format_of(grid);
    let size = grid.size();
    let row_len = Layout::of(format.kind).row_len(size.width);
    format.head_len(size) + row_len * size.height as usize
}

// Writes a grid's file: its head and its rows.
pub fn put_file<G: Grid>(grid: &mut G, out: &mut Cursor<'_>)
    requires { HasRoom out.old (printed (G.picture grid.old)) }
    ensures wrote { Wrote out.old (printed (G.picture grid.old)) out.new }
    ensures asked { Asked G.picture G.keeps grid.old grid.new }
{
    format_of(grid).put_head(grid.size(), out);
    put_body(grid, out);
}
