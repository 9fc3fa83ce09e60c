// A page of a store: its layout, and its pixels as they are shown.
ghost use Rattle.std.specs.Prelude.{◌≡◌, true, Ok};
ghost use Rattle.store.specs.Looking.{Looked};
ghost use Rattle.faults.specs.Faults.{then};
ghost use Rattle.pages.specs.Opening.{opened};
ghost use Rattle.raster.specs.Picture.{pixel_of};
ghost use Rattle.stored.specs.Pixels.{picture_of, shown_width, shown_height};
ghost use Rattle.stored.specs.Sane.{sane};

use crate::spot::Spot;
use faults::fault::{Check, Fault};
use opening::page::open_page;
use pages::layout::Layout;
use raster::grid::{Kind, Size};
use raster::turn::{column_below, row_below};
use store::traits::Store;

// The layout of a page, within the limits of a page.
#[derive(Clone, Copy)]
pub struct Page {
    pub(crate) layout: Layout,
    pub ghost limits: { sane layout ≡ true },
}

impl Page {
    // A page of the store, or the first fault.
    pub fn open<S: Store>(store: &mut S, page: u32) -> Result<Page, Fault>
        ensures value { then result (λ p. Ok p.layout) ≡ opened (S.Store.seen store.old) page }
        ensures looked { Looked S.Store.seen S.Store.may S.Store.trail store.old store.new }
    {
        let layout = open_page(store, page)?;
        Ok(Page { layout })
    }

    pub fn layout(&self) -> Layout
        ensures { result ≡ self.now.layout }
    {
        self.layout
    }

    // The turn by which the stored grid is shown.
    pub fn orientation(&self) -> u8
        ensures { result ≡ self.now.layout.orientation }
    {
        self.layout.orientation
    }

    pub fn kind(&self) -> Kind
        ensures { result ≡ self.now.layout.kind }
    {
        self.layout.kind
    }

    // The sides of the picture: orientations 5 to 8 swap those of the stored grid.
    pub fn size(&self) -> Size
        ensures width { result.width ≡ shown_width self.now.layout }
        ensures height { result.height ≡ shown_height self.now.layout }
    {
        let Layout {
            width,
            height,
            orientation,
            ..
        } = self.layout;
        Size { width, height }.turned(orientation)
    }

    // The pixel number at column x, row y of the picture; Outside where either is not below its side.
    // Two reads of the store, and none where it is refused.
    pub fn pixel<S: Store>(&self, store: &mut S, x: u32, y: u32) -> Result<u32, Fault>
        ensures answer { result ≡ pixel_of (picture_of (S.Store.seen store.old) self.now.layout) x y }
        ensures looked { Looked S.Store.seen S.Store.may S.Store.trail store.old store.new }
    {
        let size = self.size();
        if x >= size.width || y >= size.height {
            return Err(Check::Outside.fault());
        }
        let turn = self.layout.orientation;
        let spot = Spot {
            page: self,
            column: column_below(turn, self.layout.width, x, y),
            row: row_below(turn, self.layout.height, x, y),
        };
        Ok(spot.read(store))
    }
}
