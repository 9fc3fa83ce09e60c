// The pieces that a plan cuts a picture into.
ghost use Rattle.std.specs.Prelude.{◌≡◌};
ghost use Rattle.plans.specs.Limits.{limited};
ghost use Rattle.plans.specs.Outlines.{cut_by};

use pages::geometry::is_tile_side;
use pages::layout::{Cut, SegmentKind};
use raster::grid::Size;

// Strips of so many rows, or tiles of so many pixels by so many rows.
#[derive(Clone, Copy, PartialEq, Eq, Debug)]
pub enum Pieces {
    Strips { rows: u32 },
    Tiles { width: u32, length: u32 },
}

impl Pieces {
    // Whether there are some rows in a strip, or both sides are those of a tile.
    pub fn is_allowed(self) -> bool
        ensures { result ≡ limited self }
    {
        match self {
            Pieces::Strips { rows } => rows >= 1,
            Pieces::Tiles { width, length } => is_tile_side(width) && is_tile_side(length),
        }
    }

    // The cut of a picture of a size: a strip is as wide as the picture and no higher.
    pub fn cut(self, size: Size) -> Cut
        ensures { result ≡ cut_by self size.width size.height }
    {
        match self {
            Pieces::Strips { rows } => Cut {
                kind: SegmentKind::Strip,
                wide: size.width,
                high: rows.min(size.height),
            },
            Pieces::Tiles { width, length } => Cut {
                kind: SegmentKind::Tile,
                wide: width,
                high: length,
            },
        }
    }
}
