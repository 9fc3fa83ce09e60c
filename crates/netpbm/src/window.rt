// A rectangle of any grid as a Netpbm file.
ghost use Rattle.std.specs.Prelude.{◌≡◌, length, nat_le};
ghost use Rattle.netpbm.specs.Window.{window_answer, window_buffer};

use crate::file::{file_len, put_file};
use crate::part::Part;
use faults::fault::{Check, Fault};
use pnm::cursor::Cursor;
use raster::crop::fits;
use raster::grid::*;

// Whether a buffer of so many bytes has room for a file.
fn has_room(room: usize, len: usize) -> bool
    ensures { result ≡ nat_le len room }
{
    len <= room
}

// Prints an area of a grid into the front of a buffer, and answers how many bytes. A refusal leaves the buffer as it was.
pub fn window<G: Grid>(grid: &mut G, area: Area, buffer: &mut [u8]) -> Result<usize, Fault>
    ensures answer { result ≡ window_answer (G.picture grid.old) area (length buffer.old) }
    ensures buffer { buffer.new ≡ window_buffer (G.picture grid.old) area buffer.old }
    ensures kept { G.picture grid.new ≡ G.picture grid.old }
    ensures keeps { G.keeps.across grid.old grid.new }
{
    if !fits(grid, area) {
        return Err(Check::Outside.fault());
    }
    let mut part = Part { grid, area };
    if !has_room(buffer.len(), file_len(&part)) {
        return Err(Check::Small.fault());
    }
    let mut out = Cursor { buffer, place: 0 };
    put_file(&mut part, &mut out);
    Ok(out.place)
}
