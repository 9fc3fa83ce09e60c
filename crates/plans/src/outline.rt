// The outline of a draft: all of it but its pixels and its place.
ghost use Rattle.std.specs.Prelude.{◌≡◌, ◌-◌, ◌^◌, ◌<◌, ◌≤◌};
ghost use Rattle.plans.specs.Outlines.{Proper, segments_in, segment_size, entries_in, bits_size, longs_size, head_size, block_size, longs_at, offsets_entry, counts_entry, values_after, block_layout};

use entries::entry::Directory;
use entries::fields::{Form, Numbers};
use octets::endian::Endian;
use pages::layout::{Cut, Layout, SegmentKind};
use raster::grid::{Kind, Photometric};

// The functions that need but one fact of it stand here and not at DraftOutline, which would ask more of callers.
#[derive(Clone, Copy)]
pub struct Outline {
    pub endian: Endian,
    pub width: u32,
    pub height: u32,
    pub kind: Kind,
    pub cut: Cut,
}

impl Outline {
    // How many segments there are.
    pub fn segments(self) -> u64
        ensures { result ≡ segments_in self }
    {
        self.cut.segments(self.width, self.height)
    }

    // The bytes of segment k.
    #[tactic(auto, using(crate::proofs::Outlines::segment_bounded))]
    pub fn segment_size(self, k: u32) -> u32
        requires { Proper self }
        ensures { result ≡ segment_size self k }
    {
        let rows = self.cut.rows(self.width, self.height, k);
        (rows * self.cut.row_bytes(self.kind)) as u32
    }

    // The bytes before the first segment.
    pub fn head_size(self) -> u32
        requires { segments_in self ≤ 1024 }
        ensures { result ≡ head_size self }
    {
        let directory = 6 + 12 * self.entries();
        directory + self.bits_size() + 16 + 2 * longs_size(self.segments() as u32)
    }

    // The bytes of the draft.
    pub fn size(self) -> u64
        requires proper { Proper self }
        requires few { segments_in self ≤ 1024 }
        ensures { result ≡ block_size self }
    {
        let last = self.segments() - 1;
        let whole = last * self.segment_size(0) as u64;
        self.head_size() as u64 + whole + self.segment_size(last as u32) as u64
    }

    // The page of the draft at a place, as it opens.
    pub fn layout(self, place: u32) -> Layout
        requires few { segments_in self ≤ 1024 }
        requires low { place < 2 ^ 31 }
        ensures { result ≡ block_layout self place }
    {
        let n = self.segments() as u32;
        let homes = self.homes();
        let out = homes.values + self.bits_size();
        Layout {
            directory: Directory {
                endian: self.endian,
                page: 0,
                place,
                entries: self.entries(),
            },
            directories: 1,
            width: self.width,
            height: self.height,
            kind: self.kind,
            orientation: 1,
            cut: self.cut,
            offsets: longs_at(n, place + homes.offsets, place + out),
            counts: longs_at(n, place + homes.counts, place + (out + longs_size(n))),
        }
    }

    // The entries of the directory.
    fn entries(self) -> u32
        ensures { result ≡ entries_in self }
    {
        match self.cut.kind {
            SegmentKind::Strip => 12,
            SegmentKind::Tile => 13,
        }
    }

    // The bytes after the directory of the bits of each sample.
    pub fn bits_size(self) -> u32
        ensures value { result ≡ bits_size self.kind }
        ensures few { result ≤ 6 }
    {
        match self.kind.photometric {
            Photometric::Rgb => 6,
            _ => 0,
        }
    }

    // Where the offsets and the byte counts of the segments stand.
    fn homes(self) -> Homes
        ensures offsets { result.offsets ≡ offsets_entry self.cut.kind }
        ensures counts { result.counts ≡ counts_entry self.cut.kind }
        ensures values { result.values ≡ values_after self.cut.kind }
        ensures few { result.offsets ≤ 146 }
        ensures least { result.counts ≤ 146 }
        ensures most { result.values ≤ 178 }
    {
        match self.cut.kind {
            SegmentKind::Strip => Homes {
                offsets: 62,
                counts: 98,
                values: 150,
            },
            SegmentKind::Tile => Homes {
                offsets: 134,
                counts: 146,
                values: 178,
            },
        }
    }
}

// The bytes before the entries of the offsets and of the byte counts, and before the values of both but for those of
// the bits.
#[derive(Clone, Copy)]
struct Homes {
    offsets: u32,
    counts: u32,
    values: u32,
}

// The bytes after the directory of n LONGs.
pub fn longs_size(n: u32) -> u32
    requires { n ≤ 1024 }
    ensures { result ≡ longs_size n }
{
    if n <= 1 { 0 } else { 4 * n }
}

// n LONGs, that stand in their entry or at `out`.
fn longs_at(n: u32, entry: u32, out: u32) -> Numbers
    requires few { n ≤ 1024 }
    requires low { entry < 2 ^ 32 - 8 }
    ensures { result ≡ longs_at n entry out }
{
    Numbers {
        form: Form::Long,
        count: n,
        place: if 4 * n <= 4 { entry + 8 } else { out },
    }
}
