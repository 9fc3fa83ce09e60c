// What the entries of a draft say, and where the values after its directory stand.
ghost use Rattle.std.specs.Prelude.{◌≡◌, ◌+◌, ◌<◌, ◌≤◌, length};
ghost use Rattle.plans.specs.Outlines.{segments_in, segment_size};
ghost use Rattle.heads.specs.declared.contents.Content.TheVariants.{Placed};
ghost use Rattle.heads.specs.Tags.{tags_of, count};
ghost use Rattle.heads.specs.Values.{bits_at, offsets_at, counts_at, ratios_at, offset_of, one_each, content_of};

use crate::contents::Content;
use crate::head::Head;
use crate::tags::Tag;
use entries::field_type::FieldType;
use pages::geometry::samples_of;
use pages::layout::SegmentKind;
use raster::grid::Photometric;

impl Head {
    // The tags of the directory, in order.
    pub(crate) fn tags(self) -> &'static [Tag]
        ensures tags { result.now ≡ tags_of self.draft.outline.cut.kind }
        ensures length { length result.now ≡ count self.draft.outline.cut.kind }
    {
        Tag::list(self.draft.outline.cut.kind)
    }

    // Where the bits of each sample stand, which is where the directory ends.
    pub(crate) fn bits_at(self) -> u32
        ensures { result ≡ bits_at self.draft.outline }
    {
        6 + 12 * self.tags().len() as u32
    }

    // Where the offsets stand: of tiles the RATIONALs come first.
    pub(crate) fn offsets_at(self) -> u32
        ensures value { result ≡ offsets_at self.draft.outline }
        ensures few { result ≤ 184 }
    {
        let behind = self.bits_at() + self.draft.outline.bits_size();
        match self.draft.outline.cut.kind {
            SegmentKind::Strip => behind,
            SegmentKind::Tile => behind + 16,
        }
    }

    // Where the byte counts stand.
    pub(crate) fn counts_at(self) -> u32
        ensures value { result ≡ counts_at self.draft.outline }
        ensures few { result ≤ 8192 }
    {
        self.offsets_at() + self.draft.longs_size()
    }

    // Where the RATIONALs stand.
    pub(crate) fn ratios_at(self) -> u32
        ensures value { result ≡ ratios_at self.draft.outline }
        ensures few { result ≤ 16384 }
    {
        match self.draft.outline.cut.kind {
            SegmentKind::Strip => self.counts_at() + self.draft.longs_size(),
            SegmentKind::Tile => self.bits_at() + self.draft.outline.bits_size(),
        }
    }

    // The offset of segment k.
    pub(crate) fn offset_of(self, k: u32) -> u64
        requires { k < 1024 }
        ensures { result ≡ offset_of self.draft.outline self.place k }
    {
        let start = self.place as u64 + self.draft.head_size() as u64;
        start + k as u64 * self.draft.segment_size(0) as u64
    }

    // The byte count of segment k.
    pub(crate) fn count_of(self, k: u32) -> u64
        ensures { result ≡ segment_size self.draft.outline k }
    {
        self.draft.segment_size(k) as u64
    }

    // What the entry of a tag says.
    pub(crate) fn content(self, tag: Tag) -> Content
        ensures { result ≡ content_of self.draft.outline self.place tag }
    {
        let outline = self.draft.outline;
        match tag {
            Tag::ImageWidth => Content::Long(outline.width as u64),
            Tag::ImageLength => Content::Long(outline.height as u64),
            Tag::BitsPerSample => self.bits_content(),
            Tag::Compression | Tag::ResolutionUnit => Content::Short(1),
            Tag::Photometric => Content::Short(outline.kind.photometric.number()),
            Tag::StripOffsets | Tag::TileOffsets => {
                self.one_each(self.offset_of(0), self.offsets_at())
            }
            Tag::SamplesPerPixel => Content::Short(samples_of(outline.kind) as u16),
            Tag::StripByteCounts | Tag::TileByteCounts => {
                self.one_each(self.count_of(0), self.counts_at())
            }
            Tag::XResolution => self.placed(FieldType::Rational, 1, self.ratios_at()),
            Tag::YResolution => self.placed(FieldType::Rational, 1, self.ratios_at() + 8),
            Tag::TileWidth => Content::Long(outline.cut.wide as u64),
            Tag::RowsPerStrip | Tag::TileLength => Content::Long(outline.cut.high as u64),
        }
    }

    // So many values of a type, that stand at byte `at` of the draft.
    fn placed(self, kind: FieldType, count: u32, at: u32) -> Content
        ensures { result ≡ Placed kind count (self.place + at) }
    {
        Content::Placed {
            kind,
            count,
            place: self.place as u64 + at as u64,
        }
    }

    // One LONG a segment, in the entry if there is one segment, and else at byte `at` of the draft.
    fn one_each(self, first: u64, at: u32) -> Content
        ensures { result ≡ one_each (segments_in self.draft.outline) first (self.place + at) }
    {
        let n = self.draft.segments();
        if n <= 1 {
            Content::Long(first)
        } else {
            self.placed(FieldType::Long, n, at)
        }
    }

    // The bits of each sample.
    fn bits_content(self) -> Content
        ensures { result ≡ content_of self.draft.outline self.place Tag.BitsPerSample }
    {
        let kind = self.draft.outline.kind;
        match kind.photometric {
            Photometric::Rgb => self.placed(FieldType::Short, 3, self.bits_at()),
            _ => Content::Short(kind.bits),
        }
    }
}
