// The tags of a draft's directory, in order.
ghost use Rattle.std.specs.Prelude.{◌≡◌, length};
ghost use Rattle.heads.specs.Tags.{tag_number, tags_of, count};

use pages::layout::SegmentKind;

// A tag, by its number.
#[derive(Clone, Copy)]
pub enum Tag {
    ImageWidth = 256,
    ImageLength = 257,
    BitsPerSample = 258,
    Compression = 259,
    Photometric = 262,
    StripOffsets = 273,
    SamplesPerPixel = 277,
    RowsPerStrip = 278,
    StripByteCounts = 279,
    XResolution = 282,
    YResolution = 283,
    ResolutionUnit = 296,
    TileWidth = 322,
    TileLength = 323,
    TileOffsets = 324,
    TileByteCounts = 325,
}

#[rattlefmt::skip]
const STRIPS: [Tag; 12] = [
    Tag::ImageWidth, Tag::ImageLength, Tag::BitsPerSample, Tag::Compression, Tag::Photometric, Tag::StripOffsets,
    Tag::SamplesPerPixel, Tag::RowsPerStrip, Tag::StripByteCounts, Tag::XResolution, Tag::YResolution, Tag::ResolutionUnit,
];

#[rattlefmt::skip]
const TILES: [Tag; 13] = [
    Tag::ImageWidth, Tag::ImageLength, Tag::BitsPerSample, Tag::Compression, Tag::Photometric, Tag::SamplesPerPixel,
    Tag::XResolution, Tag::YResolution, Tag::ResolutionUnit, Tag::TileWidth, Tag::TileLength, Tag::TileOffsets,
    Tag::TileByteCounts,
];

impl Tag {
    // The number of the tag.
    pub fn number(self) -> u16
        ensures { result ≡ tag_number self }
    {
        self as u16
    }

    // The tags of the directory of strips or of tiles, in order.
    pub fn list(kind: SegmentKind) -> &'static [Tag]
        ensures tags { result.now ≡ tags_of kind }
        ensures length { length result.now ≡ count kind }
    {
        match kind {
            SegmentKind::Strip => &STRIPS,
            SegmentKind::Tile => &TILES,
        }
    }
}
