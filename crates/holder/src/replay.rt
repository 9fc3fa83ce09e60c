// Whole runs of a holder.
ghost use Rattle.std.specs.Prelude.{◌≡◌, map, length};
ghost use Rattle.drafts.specs.declared.call.Call.TheVariants.{Open, Pixel, Window};
ghost use Rattle.drafts.specs.Mem.{mem_of};
ghost use Rattle.drafts.specs.Steps.{Step, Sound};
ghost use Rattle.netpbm.specs.Window.{window_buffer};
ghost use Rattle.law.specs.Book.{buffer_by};
ghost use Rattle.law.specs.Run.{roomed, Stepped, LawfulRun};
ghost use Rattle.holder.specs.Worlds.{world_of, picture_by, told_open};
ghost use Rattle.holder.specs.Told.{spent, told_unit, told_begin, told_draft};
ghost use Rattle.holder.specs.Lines.{line_of, lines_of};

use crate::holder::Holder;
use crate::token::{Begun, Rested, Switched, Ticket};
use drafts::call::{Call, Reply};
use faults::fault::Fault;
use raster::grid::{Area, Grid};
use store::traits::Card;

// A call of a run with the buffer that a window fills, and its answer once it is made.
#[derive(Drop)]
pub struct Line {
    pub call: Call,
    pub buffer: Vec<u8>,
    pub answer: Result<Reply, Fault>,
}

// The result, with the draft spent that a refusal hands back.
fn spent<T, S>(res: Result<T, (Ticket<S>, Fault)>) -> Result<T, Fault>
    ensures { result ≡ spent res }
{
    res.map_err(|(draft, fault)| {
        draft.spend();
        fault
    })
}

// The answer in a result, its draft spent.
fn done(res: Result<(), Fault>) -> Result<Reply, Fault>
    ensures { result ≡ told_unit res }
{
    res.map(|()| Reply::Done)
}

fn drafted<S>(res: Result<Ticket<S>, Fault>) -> Result<Reply, Fault>
    ensures { result ≡ told_draft res }
{
    let draft = res?;
    draft.spend();
    Ok(Reply::Done)
}

fn begun(res: Result<(Begun, u64), Fault>) -> Result<Reply, Fault>
    ensures { result ≡ told_begin res }
{
    let (draft, left) = res?;
    draft.spend();
    Ok(Reply::Number(left))
}

impl<C: Card> Holder<C> {
    // Opens a page, and answers its size and kind.
    fn show(&mut self, page: u32) -> Result<Reply, Fault>
        ensures { Step (Open page) (world_of C.Store self.old) result (world_of C.Store self.new) }
    {
        self.open(page)?;
        Ok(Reply::Shown(self.size(), self.kind()))
    }

    // Asks for a pixel.
    fn ask(&mut self, x: u32, y: u32) -> Result<Reply, Fault>
        ensures { Step (Pixel x y) (world_of C.Store self.old) result (world_of C.Store self.new) }
    {
        let number = self.pixel(x, y)?;
        Ok(Reply::Number(number as u64))
    }

    // Prints a window.
    fn print(&mut self, area: Area, buffer: &mut [u8]) -> Result<Reply, Fault>
        ensures step { Step (Window area (length buffer.old)) (world_of C.Store self.old) result (world_of C.Store self.new) }
        ensures buffer { buffer.new ≡ window_buffer (picture_by C.Store.seen self.old) area buffer.old }
    {
        let count = self.window(area, buffer)?;
        Ok(Reply::Number(count as u64))
    }

    // Makes one call of a run, with a draft of its own where the call takes one.
    fn make(&mut self, call: Call, buffer: &mut [u8]) -> Result<Reply, Fault>
        ensures step { Sound (world_of C.Store self.old) → Step (roomed call (length buffer.old)) (world_of C.Store self.old) result (world_of C.Store self.new) }
        ensures buffer { buffer.new ≡ buffer_by (picture_by C.Store.seen self.old) call buffer.old }
    {
        match call {
            Call::Open(page) => self.show(page),
            Call::Pixel(x, y) => self.ask(x, y),
            Call::Window(area, _) => self.print(area, buffer),
            Call::Arrow => Ok(Reply::Number(self.arrow() as u64)),
            Call::Begin(view, plan) => begun(self.begin(view, plan)),
            Call::Carry => begun(spent(self.carry(Begun::new()))),
            Call::Rest => drafted(spent(self.rest(Begun::new()))),
            Call::Switch => drafted(spent(self.switch(Rested::new()))),
            Call::Keep => done(self.keep(Switched::new())),
            Call::Scrap => done(self.scrap(Begun::new().into())),
        }
    }

    // Makes the call of a line.
    fn answer(&mut self, line: &mut Line)
        ensures stepped { Stepped (world_of C.Store self.old) (line_of line.old line.new) (world_of C.Store self.new) }
        ensures call { line.new.call ≡ line.old.call }
    {
        line.answer = self.make(line.call, &mut line.buffer);
    }
}

// A holder over the card, sent the calls of the lines in order; each line gets its answer.
pub fn replay<C: Card>(card: C, lines: &mut [Line]) -> Holder<C>
    ensures run { LawfulRun (mem_of C.Store card) (lines_of lines.old lines.new) (mem_of C.Store result.store) }
    ensures calls { map (λ l. l.call) lines.new ≡ map (λ l. l.call) lines.old }
{
    let mut holder = Holder::new(card);
    for line in lines.iter_mut() {
        holder.answer(line);
    }
    holder
}
