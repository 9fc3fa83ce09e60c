// The drafts of a holder over a card.
ghost use Rattle.std.specs.Prelude.{◌≡◌, ◌+◌, ◌-◌, ◌*◌, ◌≤◌, take};
ghost use Rattle.drafts.specs.declared.call.Call.TheVariants.{Begin, Carry, Rest, Switch, Keep, Scrap};
ghost use Rattle.drafts.specs.Steps.{Step, Sound, sized_for, sectors};
ghost use Rattle.drafts.specs.Mem.{mem_of};
ghost use Rattle.plans.specs.Blocks.{header};
ghost use Rattle.writer.specs.Drafts.{draft_sector};
ghost use Rattle.holder.specs.Worlds.{world_of, held_by, picture_by, asked_size};
ghost use Rattle.holder.specs.Told.{told_unit, told_begin, told_carry, told_rest, told_switch, OutAt, LiveBegin, LiveCarry, LiveOn, WroteBy};

use crate::holder::Holder;
use crate::token::{Begun, Rested, Switched, Token};
use drafts::moves::next_stage;
use drafts::state::{Draft, Stage};
use faults::fault::{Check, Fault};
use places::search::find_place;
use plans::header::header_bytes;
use plans::plan::Plan;
use plans::view::View;
use raster::grid::Grid;
use raster::turns::then;
use store::traits::Card;
use stored::page::Page;
use writer::sectors::fill_sector;

// The bytes of the draft of a page through a view by a plan; refused as View or Many.
fn size_for(page: Page, view: View, plan: Plan) -> Result<u64, Fault>
    ensures { result ≡ sized_for page.layout view plan }
{
    view.check(page.size())?;
    let draft = plan
        .draft(view.size(), page.kind())
        .ok_or(Check::Many.fault())?;
    Ok(draft.size())
}

// Writes the front of a buffer to a card, in one write.
fn write_front<C: Card>(
    card: &mut C,
    place: u32,
    buffer: &[u8; 512],
    count: usize,
) -> Result<(), Fault>
    requires { count ≤ 512 }
    ensures { WroteBy result (mem_of C.Store card.old) place (take count buffer.now) (mem_of C.Store card.new) }
{
    card.write(place, &buffer[0..count])
}

// The sectors that so many bytes take.
fn sectors_of(size: u64) -> u64
    ensures { result ≡ sectors size }
{
    size.div_ceil(512)
}

// The sectors left of so many once one more is carried than the `done` before.
fn left_after(sectors: u64, done: u32) -> u64
    ensures { result ≡ sectors - (done + 1) }
{
    sectors.saturating_sub(done as u64 + 1)
}

impl<C: Card> Holder<C> {
    // The bytes that a draft of the picture would take; refused as Closed, View or Many.
    pub fn draft_size(&self, view: View, plan: Plan) -> Result<u64, Fault>
        ensures { result ≡ asked_size (held_by self.now.state).page view plan }
    {
        let page = self.state.page.ok_or(Check::Closed.fault())?;
        size_for(page, view, plan)
    }

    // Begins a draft of the picture through a view by a plan; answers the sectors to carry.
    pub fn begin(&mut self, view: View, plan: Plan) -> Result<(Begun, u64), Fault>
        ensures step { Step (Begin view plan) (world_of C.Store self.old) (told_begin result) (world_of C.Store self.new) }
        ensures live { LiveBegin result }
    {
        if self.state.draft.is_some() {
            return Err(Check::Busy.fault());
        }
        let Some(page) = self.state.page else {
            return Err(Check::Closed.fault());
        };
        if page.layout().directories != 1 {
            return Err(Check::Pages.fault());
        }
        let size = size_for(page, view, plan)?;
        let Some(place) = find_place(&mut self.store, page, size) else {
            return Err(Check::Space.fault());
        };
        self.state.draft = Some(Draft {
            view,
            plan,
            place,
            stage: Stage::Begun(0),
        });
        Ok((Begun::new(), sectors_of(size)))
    }

    // Writes a sector of a draft, in one write.
    fn put_sector(&mut self, draft: Draft, sector: u32) -> Result<(), Fault>
        ensures wrote { WroteBy result (mem_of C.Store self.old.store) (draft.place + 512 * sector) (draft_sector draft.plan (picture_by C.Store.seen self.old) draft.view draft.place sector) (mem_of C.Store self.new.store) }
        ensures state { self.new.state ≡ self.old.state }
    {
        let mut buffer = [0u8; 512];
        let count = fill_sector(
            self,
            draft.view,
            draft.plan,
            draft.place,
            sector,
            &mut buffer,
        );
        let at = draft.place as u64 + 512 * sector as u64;
        let Ok(at) = u32::try_from(at) else {
            return Err(Check::Past.fault());
        };
        write_front(&mut self.store, at, &buffer, count)
    }

    // Writes the next sector of the draft, or its last part, in one write; answers the sectors left.
    pub fn carry(&mut self, token: Begun) -> Result<(Begun, u64), (Begun, Fault)>
        ensures step { Sound (world_of C.Store self.old) → Step Carry (world_of C.Store self.old) (told_carry result) (world_of C.Store self.new) }
        ensures live { LiveCarry token result }
    {
        let Some(draft) = self.state.draft else {
            return Err((token, Check::Stage.fault()));
        };
        let Stage::Begun(done) = draft.stage else {
            return Err((token, Check::Stage.fault()));
        };
        // The token goes back with the fault, and into no closure.
        let size = match self.draft_size(draft.view, draft.plan) {
            Ok(size) => size,
            Err(fault) => return Err((token, fault)),
        };
        let sectors = sectors_of(size);
        let _ = self.put_sector(draft, done);
        self.state.draft = Some(draft.at(next_stage(sectors, done)));
        Ok((token, left_after(sectors, done)))
    }

    // The draft that is out, if it is at this stage.
    fn draft_at(&self, stage: Stage) -> Option<Draft>
        ensures { OutAt result stage self.now.state.draft }
    {
        self.state.draft.filter(|draft| draft.stage == stage)
    }

    // Settles the card under a draft that is carried.
    pub fn rest(&mut self, token: Begun) -> Result<Rested, (Begun, Fault)>
        ensures step { Step Rest (world_of C.Store self.old) (told_rest result) (world_of C.Store self.new) }
        ensures live { LiveOn token result }
    {
        let Some(draft) = self.draft_at(Stage::Carried) else {
            return Err((token, Check::Stage.fault()));
        };
        self.store.settle();
        self.state.draft = Some(draft.at(Stage::Rested));
        Ok(token.rested())
    }

    // Writes the header that leads to the draft.
    fn point(&mut self, draft: Draft) -> Result<(), Fault>
        ensures wrote { WroteBy result (mem_of C.Store self.old.store) 0 (header draft.plan.endian draft.place) (mem_of C.Store self.new.store) }
        ensures state { self.new.state ≡ self.old.state }
    {
        let outline = draft.plan.outline(draft.view.size(), self.kind());
        let bytes = header_bytes(outline.endian, draft.place);
        self.store.write(0, &bytes)
    }

    // Has the header lead to the draft, in one write.
    pub fn switch(&mut self, token: Rested) -> Result<Switched, (Rested, Fault)>
        ensures step { Sound (world_of C.Store self.old) → Step Switch (world_of C.Store self.old) (told_switch result) (world_of C.Store self.new) }
        ensures live { LiveOn token result }
    {
        let Some(draft) = self.draft_at(Stage::Rested) else {
            return Err((token, Check::Stage.fault()));
        };
        let _ = self.point(draft);
        self.state.draft = Some(draft.at(Stage::Switched));
        Ok(token.switched())
    }

    // Settles the card, and shows the page that the header now leads to.
    pub fn keep(&mut self, token: Switched) -> Result<(), Fault>
        ensures { Step Keep (world_of C.Store self.old) (told_unit result) (world_of C.Store self.new) }
    {
        token.spend();
        let draft = self.draft_at(Stage::Switched).ok_or(Check::Stage.fault())?;
        self.store.settle();
        let found = Page::open(&mut self.store, 0);
        self.state.page = found.ok();
        self.state.arrow = then(self.state.arrow, draft.view.turn);
        self.state.draft = None;
        Ok(())
    }

    // Gives up the draft.
    pub fn scrap(&mut self, token: Token) -> Result<(), Fault>
        ensures { Step Scrap (world_of C.Store self.old) (told_unit result) (world_of C.Store self.new) }
    {
        token.spend();
        if self
            .state
            .draft
            .is_none_or(|draft| draft.stage == Stage::Switched)
        {
            return Err(Check::Stage.fault());
        }
        self.state.draft = None;
        Ok(())
    }
}
