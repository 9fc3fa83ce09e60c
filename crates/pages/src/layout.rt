// What is read of a page, and what an accepted page is known by.
ghost use Rattle.std.specs.Prelude.{◌≡◌};
ghost use Rattle.pages.specs.Tags.{offsets_tag, counts_tag};

use entries::entry::Directory;
use entries::fields::Numbers;
use raster::grid::Kind;

// The values that say how a page's bytes are to be read: numbers as they stand in the file, of which a check allows a few.
#[derive(Clone, Copy)]
pub struct Format {
    pub compression: u32,
    pub fill: u32,
    pub planes: u32,
    pub orientation: u32,
}

// The values that say what a page's pixels are, as they stand in the file; `given` is for how many samples bits are given.
#[derive(Clone, Copy)]
pub struct Sampling {
    pub photometric: u32,
    pub samples: u32,
    pub given: u32,
    pub first: u32,
    pub second: u32,
    pub third: u32,
}

// The values that say how large a page and its segments are; `across` and `down` are a tile's sides.
#[derive(Clone, Copy)]
pub struct Sides {
    pub width: u32,
    pub height: u32,
    pub rows: u32,
    pub across: u32,
    pub down: u32,
}

// The values of a page's tags, but for the offsets and byte counts.
#[derive(Clone, Copy)]
pub struct Values {
    pub format: Format,
    pub sampling: Sampling,
    pub sides: Sides,
}

// Where the offsets and the byte counts of a page's segments stand.
#[derive(Clone, Copy)]
pub struct Listing {
    pub offsets: Numbers,
    pub counts: Numbers,
}

// What the segments of a page are. A strip is as wide as the page, and the last has only the rows left; a tile is always whole.
#[derive(Clone, Copy, PartialEq, Eq, Debug)]
pub enum SegmentKind {
    Strip,
    Tile,
}

// The tags of the segments' offsets and byte counts.
#[derive(Clone, Copy)]
pub struct ListingTags {
    pub offsets: u16,
    pub counts: u16,
}

impl SegmentKind {
    pub fn tags(self) -> ListingTags
        ensures offsets { result.offsets ≡ offsets_tag self }
        ensures counts { result.counts ≡ counts_tag self }
    {
        match self {
            SegmentKind::Strip => ListingTags {
                offsets: 273,
                counts: 279,
            },
            SegmentKind::Tile => ListingTags {
                offsets: 324,
                counts: 325,
            },
        }
    }
}

// How a page is cut: segments of `wide` pixels by `high` rows, left to right, then down.
#[derive(Clone, Copy)]
pub struct Cut {
    pub kind: SegmentKind,
    pub wide: u32,
    pub high: u32,
}

// An accepted page: its directory, how many directories the file has, the picture's sides and kind, the
// orientation, the cut into segments, and where the segments' offsets and byte counts stand.
#[derive(Clone, Copy)]
pub struct Layout {
    pub directory: Directory,
    pub directories: u32,
    // No Size and no Listing: most callers read one of these fields alone.
    pub width: u32,
    pub height: u32,
    pub kind: Kind,
    pub orientation: u8,
    pub cut: Cut,
    pub offsets: Numbers,
    pub counts: Numbers,
}
