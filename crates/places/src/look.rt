// The extents of a page, read from any store, and where a block stands once they are looked at.
ghost use Rattle.std.specs.Prelude.{◌≡◌, ℕ, ◌+◌, ◌*◌, ◌^◌, ◌<◌, true, List, length, slice_index};
ghost use Rattle.octets.specs.Rows.{byte};
ghost use Rattle.store.specs.Looking.{Looked};
ghost use Rattle.pages.specs.Extents.{Span, segment_span, extents};
ghost use Rattle.pages.specs.Geometry.{segments_of};
ghost use Rattle.stored.specs.Sane.{sane, Sane};
ghost use Rattle.places.specs.Search.{span_of, outer_span, entry_span, passed_all, passed_each};

use crate::extent::*;
use entries::entry::{Directory, RawEntry, size_of};
use entries::reading::read_number;
use pages::layout::Layout;
use reads::numbers::fill;
use store::traits::Store;

// Extents by number, read from any store.
trait Extents {
    ghost many: { Self → ℕ };

    ghost span_at: { Self → List ℕ → ℕ → Span };

    // How many there are.
    fn count(&self) -> u32
        ensures { result ≡ many self.now };

    // Extent k; at most one read of the store.
    fn read<S: Store>(&self, store: &mut S, k: u32) -> Extent
        ensures value { span_of result ≡ span_at self.now (S.Store.seen store.old) k }
        ensures looked { Looked S.Store.seen S.Store.may S.Store.trail store.old store.new };
}

// The needed bytes of the segments of a page.
#[derive(Clone, Copy)]
struct Segments {
    layout: Layout,
    ghost limits: { sane layout ≡ true },
}

impl Extents for Segments {
    ghost many = { λ s. segments_of s.layout };

    ghost span_at = { λ s bs k. segment_span bs s.layout k };

    fn count(&self) -> u32 {
        self.layout.segments() as u32
    }

    fn read<S: Store>(&self, store: &mut S, k: u32) -> Extent {
        let layout = self.layout;
        let offset = read_number(store, layout.directory.endian, layout.offsets, k);
        Extent {
            place: offset as u64,
            count: layout.needed(k),
        }
    }
}

// The twelve bytes from a place on, with 0 for each past the end; at most one read of the store.
// Not by read_array, which gives only zeros where any byte is past the end.
fn read_twelve<S: Store>(store: &mut S, place: u64) -> [u8; 12]
    ensures bytes { (i : ℕ) → i < 12 → slice_index result i ≡ byte (S.Store.seen store.old) (place + i) }
    ensures looked { Looked S.Store.seen S.Store.may S.Store.trail store.old store.new }
{
    let mut bytes = [0u8; 12];
    let n = store.length() as u64;
    if place < n {
        let count = (n - place).min(12) as usize;
        fill(store, place as u32, &mut bytes[..count]);
    }
    bytes
}

// So many values of a type, from a place on: no byte if they stand in their entry or do not lie within n bytes.
fn outer_extent(kind: u16, count: u32, place: u32, n: u32) -> Extent
    ensures { span_of result ≡ outer_span n kind count place }
{
    let size = size_of(kind, count);
    let place = place as u64;
    if size > 4 && place + size <= n as u64 {
        Extent { place, count: size }
    } else {
        Extent { place, count: 0 }
    }
}

// The values of the entries of a directory, listed or not.
#[derive(Clone, Copy)]
struct Values {
    directory: Directory,
}

impl Extents for Values {
    ghost many = { λ v. v.directory.entries };

    ghost span_at = { λ v bs k. entry_span v.directory.endian bs (v.directory.place + 2 + 12 * k) };

    fn count(&self) -> u32 {
        self.directory.entries
    }

    fn read<S: Store>(&self, store: &mut S, k: u32) -> Extent {
        let n = store.length();
        let place = self.directory.place as u64 + 2 + 12 * k as u64;
        let bytes = read_twelve(store, place);
        let raw = RawEntry::decode(self.directory.endian, bytes);
        outer_extent(raw.kind, raw.count, raw.last, n)
    }
}

// A block once each of some extents is looked at, in order.
// A `for` and no chain of iterators, since each look changes the store.
fn pass_each<S: Store, E: Extents>(store: &mut S, list: &E, block: Block) -> Block
    ensures place { result.place ≡ passed_each (E.span_at list.now (S.Store.seen store.old)) block.len block.place 0 (E.many list.now) }
    ensures len { result.len ≡ block.len }
    ensures near { block.place < 2 ^ 39 → result.place < 2 ^ 39 }
    ensures looked { Looked S.Store.seen S.Store.may S.Store.trail store.old store.new }
{
    let mut next = block;
    for k in 0..list.count() {
        next = next.pass(list.read(store, k));
    }
    next
}

// A block once all extents of a page are looked at, each once.
pub fn pass_extents<S: Store>(store: &mut S, layout: Layout, block: Block) -> Block
    requires { Sane layout }
    ensures place { result.place ≡ passed_all block.len block.place (extents (S.Store.seen store.old) layout) }
    ensures len { result.len ≡ block.len }
    ensures near { block.place < 2 ^ 39 → result.place < 2 ^ 39 }
    ensures looked { Looked S.Store.seen S.Store.may S.Store.trail store.old store.new }
{
    let directory = layout.directory;
    let first = block.pass(Extent::of_directory(directory));
    let second = pass_each(store, &Segments { layout }, first);
    pass_each(store, &Values { directory }, second)
}
