// Sectors of a draft.
ghost use Rattle.std.specs.Prelude.{◌≡◌, ◌+◌, ◌-◌, ◌*◌, ◌<◌, ◌≤◌, min, length};
ghost use Rattle.octets.specs.Rows.{tabulate};
ghost use Rattle.octets.specs.Sectors.{patched};
ghost use Rattle.plans.specs.Outlines.{head_size, block_size};
ghost use Rattle.plans.specs.Views.{viewed};
ghost use Rattle.plans.specs.Blocks.{block_byte};
ghost use Rattle.writer.specs.Drafts.{draft_sector};
ghost use Rattle.writer.specs.Painting.{Shows, Known, Asked};

use crate::canvas::Canvas;
use heads::head::Head;
use plans::plan::Plan;
use plans::view::View;
use raster::grid::*;

// The bytes of a sector.
pub const SECTOR: usize = 512;

impl Canvas {
    // Byte i of the draft. `last` is the RGB pixel that the byte before was painted with, if any, and then this byte's.
    fn byte<G: Grid>(self, grid: &mut G, i: u64, last: &mut Option<u32>) -> u8
        requires shown { Shows self (G.picture grid.old) }
        requires within { i < block_size self.head.draft.outline }
        requires known { Known self.head.draft.outline (viewed (G.picture grid.old) self.view).at last.old (i - head_size self.head.draft.outline) }
        ensures byte { result ≡ block_byte self.head.draft.outline (viewed (G.picture grid.old) self.view).at self.head.place i }
        ensures known { Known self.head.draft.outline (viewed (G.picture grid.old) self.view).at last.new (i + 1 - head_size self.head.draft.outline) }
        ensures asked { Asked G.picture G.keeps grid.old grid.new }
    {
        let head = self.head.draft.head_size() as u64;
        if i < head {
            *last = None;
            self.head.byte(i as u32)
        } else {
            self.paint(grid, i - head, last)
        }
    }

    // Fills the buffer with the bytes of the draft from byte `first` on.
    fn fill<G: Grid>(self, grid: &mut G, first: u64, buffer: &mut [u8])
        requires shown { Shows self (G.picture grid.old) }
        requires within { 0 < length buffer.old → first + length buffer.old ≤ block_size self.head.draft.outline }
        ensures bytes { buffer.new ≡ tabulate (length buffer.old) (λ i. block_byte self.head.draft.outline (viewed (G.picture grid.old) self.view).at self.head.place (first + i)) }
        ensures asked { Asked G.picture G.keeps grid.old grid.new }
    {
        let mut last = None;
        for (t, byte) in buffer.iter_mut().enumerate() {
            *byte = self.byte(grid, first + t as u64, &mut last);
        }
    }
}

// How many of so many bytes lie in a sector.
pub fn sector_len(size: u64, sector: u32) -> usize
    ensures { result ≡ min 512 (size - 512 * sector) }
{
    size.saturating_sub(SECTOR as u64 * sector as u64)
        .min(SECTOR as u64) as usize
}

// Fills the front of the buffer with a sector of the draft, at a place, of what a view shows of a grid, and answers how
// many bytes these are. That is 0, and the buffer stays, past the last sector, at a view that is none of the grid's
// picture, and where the plan makes more than 1,024 segments.
// The count is no code for a refusal: a sector that is none has no bytes.
pub fn fill_sector<G: Grid>(
    grid: &mut G,
    view: View,
    plan: Plan,
    place: u32,
    sector: u32,
    buffer: &mut [u8; SECTOR],
) -> usize
    ensures count { result ≡ length (draft_sector plan (G.picture grid.old) view place sector) }
    ensures bytes { buffer.new ≡ patched buffer.old 0 (draft_sector plan (G.picture grid.old) view place sector) }
    ensures kept { G.picture grid.new ≡ G.picture grid.old }
    ensures keeps { G.keeps.across grid.old grid.new }
{
    if view.check(grid.size()).is_err() {
        return 0;
    }
    let Some(draft) = plan.draft(view.size(), grid.kind()) else {
        return 0;
    };
    let count = sector_len(draft.size(), sector);
    let canvas = Canvas {
        head: Head { draft, place },
        view,
    };
    canvas.fill(grid, SECTOR as u64 * sector as u64, &mut buffer[..count]);
    count
}
