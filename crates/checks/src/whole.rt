// The checks of a whole page, by its tags and their values.
ghost use Rattle.std.specs.Prelude.{◌≡◌, not, Ok};
ghost use Rattle.faults.specs.Faults.{refused};
ghost use Rattle.pages.specs.Pages.{fault_in, segment_kind, found, listing, tile_listing, complete, formatted, grey, rgb, sampled, tile_cut, strip_cut, cut_of, tallied, laid_out};

use entries::entry::Directory;
use entries::fields::{Fields, Numbers, Table};
use faults::fault::{Check, Fault};
use pages::geometry::{is_page_side, is_tile_side};
use pages::layout::*;
use raster::grid::{Kind, Photometric};

// What a page is cut into: it is tiled if it has any of the tags of tiles.
fn segment_kind(fields: Fields) -> SegmentKind
    ensures { result ≡ segment_kind fields }
{
    if fields.across.is_some()
        || fields.down.is_some()
        || fields.tiles.offsets.is_some()
        || fields.tiles.counts.is_some()
    {
        SegmentKind::Tile
    } else {
        SegmentKind::Strip
    }
}

// Whether the pixels are grey: one sample of 1, 4 or 8 bits.
fn is_grey(s: Sampling) -> bool
    ensures { result ≡ grey s }
{
    s.photometric < 2 && s.samples == 1 && (s.first == 1 || s.first == 4 || s.first == 8)
}

// Whether the pixels are RGB: three samples of 8 bits.
fn is_rgb(s: Sampling) -> bool
    ensures { result ≡ rgb s }
{
    s.photometric == 2 && s.samples == 3 && s.first == 8 && s.second == 8 && s.third == 8
}

// The checks of the page with a directory.
#[derive(Clone, Copy)]
struct PageCheck {
    directory: Directory,
}

impl PageCheck {
    // A fault of a page names its directory's place.
    fn fault(self, check: Check, tag: u16) -> Fault
        ensures { result ≡ fault_in check self.directory tag }
    {
        check.fault_at(self.directory.page, tag, self.directory.place)
    }

    // A fault of a tag, unless its values are as they must be.
    fn expect(self, holds: bool, check: Check, tag: u16) -> Result<(), Fault>
        ensures { result ≡ refused (not holds) (fault_in check self.directory tag) (Ok tt) }
    {
        if holds {
            Ok(())
        } else {
            Err(self.fault(check, tag))
        }
    }

    // A tag that a page must have.
    fn find(self, tag: u16, field: Option<Numbers>) -> Result<Numbers, Fault>
        ensures { result ≡ found self.directory tag field }
    {
        field.ok_or(self.fault(Check::Missing, tag))
    }

    // The offsets and byte counts of strips or of tiles.
    #[tactic(auto, unfolding(pages::specs::Pages::listing))]
    fn find_listing(self, kind: SegmentKind, table: Table) -> Result<Listing, Fault>
        ensures { result ≡ listing self.directory kind table }
    {
        let tags = kind.tags();
        let offsets = self.find(tags.offsets, table.offsets)?;
        let counts = self.find(tags.counts, table.counts)?;
        Ok(Listing { offsets, counts })
    }

    #[tactic(auto, unfolding(pages::specs::Pages::tile_listing))]
    fn find_tiles(self, fields: Fields) -> Result<Listing, Fault>
        ensures { result ≡ tile_listing self.directory fields }
    {
        self.find(322, fields.across)?;
        self.find(323, fields.down)?;
        self.find_listing(SegmentKind::Tile, fields.tiles)
    }

    // The offsets and byte counts of a page that lacks no tag.
    #[tactic(auto, unfolding(pages::specs::Pages::complete))]
    fn check_complete(self, fields: Fields) -> Result<Listing, Fault>
        ensures { result ≡ complete self.directory fields }
    {
        self.find(256, fields.width)?;
        self.find(257, fields.height)?;
        self.find(262, fields.photometric)?;
        match segment_kind(fields) {
            SegmentKind::Strip => self.find_listing(SegmentKind::Strip, fields.strips),
            SegmentKind::Tile => self.find_tiles(fields),
        }
    }

    // The orientation of a page whose bytes are laid out as they must be.
    #[tactic(auto, using(std::proofs::lemmas::Bool::Decides::nat_tests), unfolding(pages::specs::Pages::formatted))]
    fn check_format(self, format: Format) -> Result<u8, Fault>
        ensures { result ≡ formatted self.directory format }
    {
        self.expect(format.compression == 1, Check::Kind, 259)?;
        self.expect(format.fill == 1, Check::Kind, 266)?;
        self.expect(format.planes == 1, Check::Kind, 284)?;
        self.expect((1..=8).contains(&format.orientation), Check::Kind, 274)?;
        Ok(format.orientation as u8)
    }

    // The kind of a page, if it is allowed.
    #[tactic(auto, using(std::proofs::lemmas::Bool::Decides::nat_tests), unfolding(pages::specs::Pages::sampled))]
    fn check_sampling(self, sampling: Sampling) -> Result<Kind, Fault>
        ensures { result ≡ sampled self.directory sampling }
    {
        let allowed = is_grey(sampling) || is_rgb(sampling);
        self.expect(
            sampling.samples == 1 || sampling.samples == 3,
            Check::Kind,
            277,
        )?;
        self.expect(sampling.given == sampling.samples, Check::Kind, 258)?;
        self.expect(allowed, Check::Kind, 262)?;
        Ok(Kind {
            photometric: Photometric::try_from(sampling.photometric).unwrap_or(Photometric::Rgb),
            bits: sampling.first as u16,
        })
    }

    // The cut into tiles.
    #[tactic(auto, using(std::proofs::lemmas::Bool::Decides::nat_tests), unfolding(pages::specs::Pages::tile_cut))]
    fn cut_tiles(self, sides: Sides) -> Result<Cut, Fault>
        ensures { result ≡ tile_cut self.directory sides }
    {
        self.expect(is_tile_side(sides.across), Check::Size, 322)?;
        self.expect(is_tile_side(sides.down), Check::Size, 323)?;
        Ok(Cut {
            kind: SegmentKind::Tile,
            wide: sides.across,
            high: sides.down,
        })
    }

    // The cut into strips.
    #[tactic(auto, using(std::proofs::lemmas::Bool::Decides::nat_tests), unfolding(pages::specs::Pages::strip_cut))]
    fn cut_strips(self, sides: Sides) -> Result<Cut, Fault>
        ensures { result ≡ strip_cut self.directory sides }
    {
        self.expect(sides.rows != 0, Check::Size, 278)?;
        Ok(Cut {
            kind: SegmentKind::Strip,
            wide: sides.width,
            high: sides.rows.min(sides.height),
        })
    }

    // How a page is cut whose sides are within limits.
    #[tactic(auto, using(std::proofs::lemmas::Bool::Decides::nat_tests), unfolding(pages::specs::Pages::cut_of))]
    fn check_sides(self, kind: SegmentKind, sides: Sides) -> Result<Cut, Fault>
        ensures { result ≡ cut_of self.directory kind sides }
    {
        self.expect(is_page_side(sides.width), Check::Size, 256)?;
        self.expect(is_page_side(sides.height), Check::Size, 257)?;
        match kind {
            SegmentKind::Strip => self.cut_strips(sides),
            SegmentKind::Tile => self.cut_tiles(sides),
        }
    }
}

// A page with one offset and one byte count a segment, and at most 1,024 segments.
#[tactic(auto, using(std::proofs::lemmas::Bool::Decides::nat_tests), unfolding(pages::specs::Pages::tallied))]
fn check_tally(layout: Layout) -> Result<Layout, Fault>
    ensures { result ≡ tallied layout }
{
    let page = PageCheck {
        directory: layout.directory,
    };
    let segments = layout.segments();
    let tags = layout.cut.kind.tags();
    page.expect(
        layout.offsets.count as u64 == segments,
        Check::Tally,
        tags.offsets,
    )?;
    page.expect(
        layout.counts.count as u64 == segments,
        Check::Tally,
        tags.counts,
    )?;
    page.expect(segments <= 1024, Check::Tally, tags.offsets)?;
    Ok(layout)
}

// The layout of a page that passes the checks of the whole page, in a file with so many directories.
#[tactic(auto, unfolding(pages::specs::Pages::laid_out))]
pub fn lay_out(
    directory: Directory,
    directories: u32,
    fields: Fields,
    values: Values,
) -> Result<Layout, Fault>
    ensures { result ≡ laid_out directory directories fields values }
{
    let page = PageCheck { directory };
    let listing = page.check_complete(fields)?;
    let orientation = page.check_format(values.format)?;
    let kind = page.check_sampling(values.sampling)?;
    let cut = page.check_sides(segment_kind(fields), values.sides)?;
    check_tally(Layout {
        directory,
        directories,
        width: values.sides.width,
        height: values.sides.height,
        kind,
        orientation,
        cut,
        offsets: listing.offsets,
        counts: listing.counts,
    })
}
