// The pixels of a layout as they are stored, before its orientation.
ghost use Rattle.std.specs.Prelude.{◌≡◌, ◌<◌};
ghost use Rattle.store.specs.Looking.{Looked};
ghost use Rattle.stored.specs.Pixels.{stored_pixel};
ghost use Rattle.stored.specs.Sane.{Sane};

use crate::places::*;
use crate::samples::read_pixel;
use entries::reading::read_number;
use pages::layout::Layout;
use store::traits::Store;

// The stored pixel at column x, row y; two reads of the store, of its segment's offset and of its bytes.
pub fn read_stored<S: Store>(store: &mut S, layout: &Layout, x: u32, y: u32) -> u32
    requires sane { Sane layout.now }
    requires column { x < layout.now.width }
    requires row { y < layout.now.height }
    ensures value { result ≡ stored_pixel (S.Store.seen store.old) layout.now x y }
    ensures looked { Looked S.Store.seen S.Store.may S.Store.trail store.old store.new }
{
    let segment = segment_of(layout, x, y);
    let offset = read_number(store, layout.directory.endian, layout.offsets, segment);
    let place = offset as u64 + start_of(layout, x, y);
    read_pixel(store, layout.kind, place, first_sample(layout, x))
}
