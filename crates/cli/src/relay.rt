// A page laid out anew.
use crate::failed::Failed;
use crate::files::{load, save};
use crate::info::{print_fault, print_page};
pub use crate::wishes::Wish;
use faults::fault::Fault;
use holder::holder::Holder;
use plans::view::View;
use raster::grid::{Area, Grid};
use relaying::lay_out;
use script::hash::fnv;
use store::slices::{Chip, Memory};
use store::traits::Card;

// A refusal is printed, and ends the command whether or not that could be.
fn refused(rt: &HostRuntime, fault: Fault) -> Failed {
    let _ = print_fault(rt, fault);
    Failed::Refused
}

// The view that is wished for of the picture shown.
fn view_of<C: Card>(holder: &Holder<C>, wish: Wish) -> View {
    let size = holder.size();
    let whole = Area {
        x: 0,
        y: 0,
        width: size.width,
        height: size.height,
    };
    View {
        area: wish.area.unwrap_or(whole),
        turn: wish.turn,
    }
}

// Lays out page 0 of a card anew, and answers how many sectors were written.
fn lay_out_first<C: Card>(
    rt: &HostRuntime,
    holder: &mut Holder<C>,
    wish: Wish,
) -> Result<u64, Failed> {
    holder.open(0).map_err(|fault| refused(rt, fault))?;
    let view = view_of(holder, wish);
    lay_out(holder, view, wish.plan).map_err(|fault| refused(rt, fault))
}

// The bytes that the draft takes.
fn draft_room(rt: &HostRuntime, bytes: &mut [u8], wish: Wish) -> Result<u64, Failed> {
    let mut holder = Holder::new(Memory::new(bytes));
    holder.open(0).map_err(|fault| refused(rt, fault))?;
    holder
        .draft_size(view_of(&holder, wish), wish.plan)
        .map_err(|fault| refused(rt, fault))
}

// Makes a file longer by zeros: to whole sectors, and by room for a draft.
fn extend(bytes: &mut Vec<u8>, room: u64) -> Result<(), Failed> {
    let had = bytes.len() as u64;
    let length = (had / 512 + 1).saturating_mul(512).saturating_add(room);
    bytes.resize(length as usize, 0)?;
    Ok(())
}

fn print_file(rt: &HostRuntime, bytes: &[u8]) -> Result<(), Failed> {
    let mut chip = Chip::new(bytes);
    print_page(rt, &mut chip, 0)?;
    Ok(())
}

// Puts a file on a card with room for the draft, lays out page 0 anew, and writes what the card then holds.
pub fn relay(rt: &HostRuntime, name: &str, out: &str, wish: Wish) -> Result<(), Failed> {
    let mut bytes = load(rt, name)?;
    let room = draft_room(rt, bytes.as_mut_slice(), wish)?;
    println!(rt; "from {name}:")?;
    print_file(rt, bytes.as_slice())?;
    extend(&mut bytes, room)?;
    eprintln!(rt; "jomavetro: carrying a draft of {room} bytes")?;
    let mut holder = Holder::new(Memory::new(bytes.as_mut_slice()));
    let sectors = lay_out_first(rt, &mut holder, wish)?;
    drop(holder);
    save(rt, out, bytes.as_slice())?;
    println!(rt;
        "to {out}: {sectors} sectors and the header written, {} bytes, fnv {:016x}",
        bytes.len(),
        fnv(bytes.as_slice())
    )?;
    print_file(rt, bytes.as_slice())
}
