// A rectangle of a page as a Netpbm picture.
use crate::failed::Failed;
use crate::files::{load, save};
use crate::info::accepted;
use faults::fault::Check;
use holder::holder::Holder;
use raster::grid::{Area, Grid, Kind, Photometric};
use std::io::Write;
use store::slices::Chip;

// Room for the head of any window.
const HEAD: usize = 64;

// Bytes enough for a window of a kind: its rows, and room for the head.
fn window_room(area: Area, kind: Kind) -> usize {
    let width = area.width as usize;
    let row = match kind.photometric {
        Photometric::Rgb => width.saturating_mul(3),
        _ => { if kind.bits == 1 { width / 8 + 1 } else { width } }
    };
    row.saturating_mul(area.height as usize)
        .saturating_add(HEAD)
}

// Writes a picture to a file, or with `-` to the standard output.
fn deliver(rt: &HostRuntime, out: &str, bytes: &[u8]) -> Result<(), Failed> {
    if out == "-" {
        rt.stdout().write_all(bytes)?;
        return Ok(());
    }
    save(rt, out, bytes)
}

// Prints a rectangle of a page of a file.
pub fn write_window(
    rt: &HostRuntime,
    name: &str,
    page: u32,
    area: Area,
    out: &str,
) -> Result<(), Failed> {
    let bytes = load(rt, name)?;
    let mut holder = Holder::new(Chip::new(bytes.as_slice()));
    accepted(rt, holder.open(page))?;
    if !area.fits(holder.size()) {
        return accepted(rt, Err(Check::Outside.fault()));
    }
    let length = window_room(area, holder.kind());
    let mut buffer: Vec<u8> = vec![in rt.alloc(); 0; length]?;
    let count = accepted(rt, holder.window(area, buffer.as_mut_slice()))?;
    buffer.truncate(count);
    deliver(rt, out, buffer.as_slice())
}
