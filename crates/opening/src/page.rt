// The opening of a page.
ghost use Rattle.std.specs.Prelude.{◌≡◌};
ghost use Rattle.store.specs.Looking.{Looked};
ghost use Rattle.entries.specs.Entries.{Inside};
ghost use Rattle.pages.specs.Geometry.{segments_of};
ghost use Rattle.pages.specs.Segments.{lacking, segment_at, filled};
ghost use Rattle.pages.specs.Opening.{page_of, opened};

use crate::values::read_values;
use checks::whole::lay_out;
use entries::entry::Directory;
use entries::reading::{read_number, scan};
use faults::fault::{Check, Fault};
use links::walk::walk;
use pages::layout::*;
use reads::numbers::read;
use store::traits::Store;

// Whether a segment does not hold what it needs, in a file of n bytes.
fn is_lacking(n: u32, offset: u32, count: u32, need: u64) -> bool
    ensures { result ≡ lacking n offset count need }
{
    offset < 8 || (count as u64) < need || offset as u64 + need > n as u64
}

// The check of segment k; its offset and its byte count are read once.
fn check_segment<S: Store>(store: &mut S, layout: Layout, k: u32) -> Result<(), Fault>
    ensures value { result ≡ segment_at (S.Store.seen store.old) layout k }
    ensures looked { Looked S.Store.seen S.Store.may S.Store.trail store.old store.new }
{
    let n = store.length();
    let endian = layout.directory.endian;
    let offset = read_number(store, endian, layout.offsets, k);
    let count = read_number(store, endian, layout.counts, k);
    if is_lacking(n, offset, count, layout.needed(k)) {
        let tag = layout.cut.kind.tags().offsets;
        return Err(Check::Segment.fault_at(layout.directory.page, tag, offset));
    }
    Ok(())
}

// The checks of all segments, in order.
fn check_segments<S: Store>(store: &mut S, layout: Layout) -> Result<Layout, Fault>
    requires tally { layout.offsets.count ≡ segments_of layout }
    ensures value { result ≡ filled (S.Store.seen store.old) layout }
    ensures looked { Looked S.Store.seen S.Store.may S.Store.trail store.old store.new }
{
    // Each check reads the store, so the segments are counted and not iterated.
    for k in 0..layout.offsets.count {
        check_segment(store, layout, k)?;
    }
    Ok(layout)
}

// The checks of a page, from its entries to its segments, in a file with so many directories.
fn check_page<S: Store>(
    store: &mut S,
    directories: u32,
    directory: Directory,
) -> Result<Layout, Fault>
    requires inside { Inside (S.Store.seen store.old) directory }
    ensures value { result ≡ page_of (S.Store.seen store.old) directories directory }
    ensures looked { Looked S.Store.seen S.Store.may S.Store.trail store.old store.new }
{
    let fields = scan(store, directory)?;
    let values = read_values(store, directory.endian, fields);
    let layout = lay_out(directory, directories, fields, values)?;
    check_segments(store, layout)
}

// A page of a file, or the first fault.
pub fn open_page<S: Store>(store: &mut S, page: u32) -> Result<Layout, Fault>
    ensures value { result ≡ opened (S.Store.seen store.old) page }
    ensures looked { Looked S.Store.seen S.Store.may S.Store.trail store.old store.new }
{
    let directories = walk(store)?;
    let endian = directories.endian;
    let place = directories.place(page)?;
    let entries: u16 = read(store, endian, place);
    check_page(
        store,
        directories.count,
        Directory {
            endian,
            page,
            place,
            entries: entries as u32,
        },
    )
}
