// The bytes of the segments, from the pixels of any grid.
ghost use Rattle.std.specs.Prelude.{◌≡◌, ◌+◌, ◌*◌, ◌/◌, ◌%◌, ◌<◌, ◌≤◌};
ghost use Rattle.pages.specs.Geometry.{samples_of};
ghost use Rattle.plans.specs.Outlines.{segment_size};
ghost use Rattle.plans.specs.Views.{viewed};
ghost use Rattle.plans.specs.Blocks.{segments_byte};
ghost use Rattle.writer.specs.Spots.{pixel_at, padded_at, byte_at};
ghost use Rattle.writer.specs.Painting.{Shows, Known, Shared, Asked};

use crate::canvas::Canvas;
use crate::pixels::*;
use crate::spots::*;
use pages::geometry::samples_of;
use raster::grid::*;

impl Canvas {
    // Byte j of the segments. `last` is the RGB pixel that the byte before was painted with, if any, and then this byte's.
    pub fn paint<G: Grid>(self, grid: &mut G, j: u64, last: &mut Option<u32>) -> u8
        requires shown { Shows self (G.picture grid.old) }
        requires segment { j / segment_size self.head.draft.outline 0 < 1024 }
        requires known { Known self.head.draft.outline (viewed (G.picture grid.old) self.view).at last.old j }
        ensures byte { result ≡ segments_byte self.head.draft.outline (viewed (G.picture grid.old) self.view).at j }
        ensures known { Known self.head.draft.outline (viewed (G.picture grid.old) self.view).at last.new (j + 1) }
        ensures asked { Asked G.picture G.keeps grid.old grid.new }
    {
        let spot = locate(self.head.draft.outline, j);
        if samples_of(self.head.draft.outline.kind) == 1 {
            *last = None;
            self.grey_byte(grid, spot)
        } else {
            let pixel = self.colour(grid, spot, *last);
            *last = Some(pixel);
            channel(pixel, spot.byte % 3)
        }
    }

    // The byte at a spot where a pixel has one sample: the first sample in the highest bits.
    fn grey_byte<G: Grid>(self, grid: &mut G, spot: Spot) -> u8
        requires shown { Shows self (G.picture grid.old) }
        requires single { samples_of self.head.draft.outline.kind ≡ 1 }
        requires column { spot.column ≤ 16777216 }
        requires byte { spot.byte < 49152 }
        ensures value { result ≡ byte_at self.head.draft.outline (viewed (G.picture grid.old) self.view).at spot }
        ensures asked { Asked G.picture G.keeps grid.old grid.new }
    {
        let bits = self.head.draft.outline.kind.bits as u32;
        let per = 8 / bits;
        let levels = 1u32 << bits;
        let mut sum = 0u32;
        // A loop: for a fold neither the bound of the sum nor what its closure leaves of the grid gets a proof.
        for t in 0..per {
            sum = sum * levels + self.grey_sample(grid, spot, sample_of(spot.byte, per, t));
        }
        sum as u8
    }

    // Sample s of the row of a spot where a pixel has one sample, and 0 past the row's end.
    fn grey_sample<G: Grid>(self, grid: &mut G, spot: Spot, s: u32) -> u32
        requires shown { Shows self (G.picture grid.old) }
        requires single { samples_of self.head.draft.outline.kind ≡ 1 }
        requires column { spot.column ≤ 16777216 }
        ensures value { result ≡ padded_at self.head.draft.outline (viewed (G.picture grid.old) self.view).at spot s }
        ensures asked { Asked G.picture G.keeps grid.old grid.new }
    {
        if s < self.head.draft.outline.cut.wide {
            seen_pixel(grid, self.view, spot.column + s, spot.row)
        } else {
            0
        }
    }

    // The RGB pixel of a spot: `last`, the pixel of the byte before, if the spot is another byte of it, and else asked.
    fn colour<G: Grid>(self, grid: &mut G, spot: Spot, last: Option<u32>) -> u32
        requires shown { Shows self (G.picture grid.old) }
        requires column { spot.column ≤ 16777216 }
        requires byte { spot.byte < 49152 }
        requires shared { Shared self.head.draft.outline (viewed (G.picture grid.old) self.view).at last spot }
        ensures value { result ≡ pixel_at self.head.draft.outline (viewed (G.picture grid.old) self.view).at spot (spot.byte / 3) }
        ensures asked { Asked G.picture G.keeps grid.old grid.new }
    {
        match last {
            Some(pixel) if spot.byte % 3 > 0 => pixel,
            _ => seen_pixel(grid, self.view, spot.column + spot.byte / 3, spot.row),
        }
    }
}

// Which sample of its row is the t-th from the highest bits of a byte that has `per` samples.
fn sample_of(byte: u32, per: u32, t: u32) -> u32
    requires byte { byte < 49152 }
    requires per { per ≤ 8 }
    requires one { t < per }
    ensures { result ≡ byte * per + t }
{
    t + byte * per
}
