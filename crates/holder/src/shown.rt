// The holder as a grid.
ghost use Rattle.std.specs.Prelude.{◌≡◌, length, Ok};
ghost use Rattle.drafts.specs.declared.call.Call.TheVariants.{Open, Window, Arrow};
ghost use Rattle.drafts.specs.Steps.{Step, number, fresh};
ghost use Rattle.netpbm.specs.Window.{window_buffer};
ghost use Rattle.holder.specs.Worlds.{world_of, held_by, picture_by, told_open};
ghost use Rattle.holder.specs.Soundness.{holder_sound, holder_keeps};

use crate::holder::Holder;
use drafts::state::State;
use faults::fault::{Check, Fault};
use netpbm::window::window;
use raster::grid::*;
use store::traits::Store;
use stored::page::Page;

impl<S: Store> Grid for Holder<S> {
    ghost picture = { picture_by S.Store.seen };

    ghost sound = { holder_sound S.Store.seen };

    ghost keeps = { holder_keeps S.Store };

    fn size(&self) -> Size {
        self.state.page.map_or(Size::EMPTY, |page| page.size())
    }

    fn kind(&self) -> Kind {
        self.state.page.map_or(Kind::EMPTY, |page| page.kind())
    }

    fn pixel(&mut self, x: u32, y: u32) -> Result<u32, Fault> {
        let Some(page) = self.state.page else {
            return Err(Check::Outside.fault());
        };
        page.pixel(&mut self.store, x, y)
    }
}

impl<S: Store> Holder<S> {
    // A closed holder: an empty grid.
    pub fn new(store: S) -> Self
        ensures store { result.store ≡ store }
        ensures fresh { held_by result.state ≡ fresh }
    {
        Holder {
            store,
            state: State {
                page: None,
                arrow: 1,
                draft: None,
            },
        }
    }

    // Shows a page, from 0; refused, what is shown stays. Every call but a Busy one settles the store.
    pub fn open(&mut self, page: u32) -> Result<(), Fault>
        ensures { Step (Open page) (world_of S.Store self.old) (told_open (picture_by S.Store.seen self.new) result) (world_of S.Store self.new) }
    {
        if self.state.draft.is_some() {
            return Err(Check::Busy.fault());
        }
        self.store.settle();
        let found = Page::open(&mut self.store, page)?;
        self.state.page = Some(found);
        self.state.arrow = found.orientation();
        Ok(())
    }

    // A rectangle of the picture as a Netpbm file; a refusal leaves the buffer as it was.
    pub fn window(&mut self, area: Area, buffer: &mut [u8]) -> Result<usize, Fault>
        ensures step { Step (Window area (length buffer.old)) (world_of S.Store self.old) (number result) (world_of S.Store self.new) }
        ensures buffer { buffer.new ≡ window_buffer (picture_by S.Store.seen self.old) area buffer.old }
    {
        window(self, area, buffer)
    }

    // The one turn that the orientation and all turns kept since opening amount to, 1 if closed.
    pub fn arrow(&self) -> u8
        ensures { Step Arrow (world_of S.Store self.now) (number (Ok result)) (world_of S.Store self.now) }
    {
        self.state.arrow
    }
}
