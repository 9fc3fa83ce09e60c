// The search for the place of a draft.
ghost use Rattle.std.specs.Prelude.{◌≡◌};
ghost use Rattle.store.specs.Looking.{Looked};
ghost use Rattle.places.specs.Places.{place_of};
ghost use Rattle.places.specs.Lowest.{Placed};

use crate::extent::*;
use crate::look::pass_extents;
use store::traits::Store;
use stored::page::Page;

// The lowest place of a block: sector 0 is the header's.
fn first_place() -> u64
    ensures { result ≡ 512 }
{
    SECTOR
}

// The place of a block of `len` bytes beside a page: the lowest multiple of 512, from 512 up, at which it ends within the
// store and shares no sector with an extent of the page; none if there is none.
pub fn find_place<S: Store>(store: &mut S, page: Page, len: u64) -> Option<u32>
    ensures value { result ≡ place_of (S.Store.seen store.old) page.layout len }
    ensures lowest { Placed (S.Store.seen store.old) page.layout len result }
    ensures looked { Looked S.Store.seen S.Store.may S.Store.trail store.old store.new }
{
    let n = store.length();
    let layout = page.layout();
    let mut place = first_place();
    while let Some(block) = Block::within(place, len, n) {
        let next = pass_extents(store, layout, block).place;
        if next == place {
            return Some(place as u32);
        }
        place = next;
    }
    None
}
