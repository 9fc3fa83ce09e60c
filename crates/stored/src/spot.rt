// The pixels of a page as they are stored, before its orientation.
ghost use Rattle.std.specs.Prelude.{◌≡◌, ◌<◌};
ghost use Rattle.store.specs.Looking.{Looked};
ghost use Rattle.stored.specs.Pixels.{segment_of, first_sample, stored_pixel};
ghost use Rattle.stored.specs.Reading.{start_of};

use crate::page::Page;
use crate::places::*;
use crate::stored::read_stored;
use store::traits::Store;

// A pixel of the stored grid of a page.
#[derive(Clone, Copy)]
pub struct Spot<'a> {
    pub(crate) page: &'a Page,
    pub(crate) column: u32,
    pub(crate) row: u32,
    ghost across: { column < page.now.layout.width },
    ghost down: { row < page.now.layout.height },
}

impl Spot<'_> {
    // The segment in which the pixel lies.
    pub fn segment(&self) -> u32
        ensures { let l = self.now.page.now.layout in result ≡ segment_of l.cut l.width self.now.column self.now.row }
    {
        segment_of(&self.page.layout, self.column, self.row)
    }

    // Which sample of its row is the first of the pixel.
    pub fn first_sample(&self) -> u32
        ensures { result ≡ first_sample self.now.page.now.layout self.now.column }
    {
        first_sample(&self.page.layout, self.column)
    }

    // How far into its segment the bytes of the pixel begin.
    pub fn start(&self) -> u64
        ensures { result ≡ start_of self.now.page.now.layout self.now.column self.now.row }
    {
        start_of(&self.page.layout, self.column, self.row)
    }

    // The pixel; two reads of the store, of its segment's offset and of its bytes.
    pub fn read<S: Store>(&self, store: &mut S) -> u32
        ensures value { result ≡ stored_pixel (S.Store.seen store.old) self.now.page.now.layout self.now.column self.now.row }
        ensures looked { Looked S.Store.seen S.Store.may S.Store.trail store.old store.new }
    {
        read_stored(store, &self.page.layout, self.column, self.row)
    }
}
