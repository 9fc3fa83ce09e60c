// What a file holds.
use crate::failed::Failed;
use crate::meaning::meaning;
use faults::fault::Fault;
use links::directories::Directories;
use links::walk::walk;
use octets::endian::Endian;
use opening::page::open_page;
use pages::layout::{Cut, Layout, SegmentKind};
use raster::grid::{Kind, Photometric};
use store::slices::Chip;

// The two letters of a byte order, and what they mean. The words are this command's own, so they are no Display of the type.
fn order_name(endian: Endian) -> &'static str {
    match endian {
        Endian::Little => "II, low byte first",
        Endian::Big => "MM, high byte first",
    }
}

// What a kind of pixels is called.
fn kind_name(kind: Kind) -> &'static str {
    match kind.photometric {
        Photometric::WhiteIsZero => "0 is white",
        Photometric::BlackIsZero => "0 is black",
        Photometric::Rgb => "RGB",
    }
}

// A refusal in words and in numbers.
pub fn print_fault(rt: &HostRuntime, fault: Fault) -> Result<(), Failed> {
    println!(rt; "{}", meaning(fault.check))?;
    println!(rt; "{fault}")?;
    Ok(())
}

// What was answered; a refusal is printed, which may fail too, and ends the command.
pub(crate) fn accepted<T: Drop>(rt: &HostRuntime, answer: Result<T, Fault>) -> Result<T, Failed> {
    match answer {
        Ok(value) => Ok(value),
        Err(fault) => {
            print_fault(rt, fault)?;
            Err(Failed::Refused)
        }
    }
}

fn print_cut(rt: &HostRuntime, cut: Cut, count: u32) -> Result<(), Failed> {
    match cut.kind {
        SegmentKind::Strip => println!(rt; "  {count} strips of {} rows", cut.high)?,
        SegmentKind::Tile => println!(rt; "  {count} tiles of {} by {}", cut.wide, cut.high)?,
    }
    Ok(())
}

fn print_layout(rt: &HostRuntime, page: u32, layout: Layout) -> Result<(), Failed> {
    println!(rt; "page {page}: directory at byte {}", layout.directory.place)?;
    println!(rt;
        "  {} by {} pixels, {}, {}-bit samples, orientation {}",
        layout.width,
        layout.height,
        kind_name(layout.kind),
        layout.kind.bits,
        layout.orientation
    )?;
    print_cut(rt, layout.cut, layout.offsets.count)
}

// A page: what it is, or why it is refused.
pub fn print_page(rt: &HostRuntime, chip: &mut Chip, page: u32) -> Result<bool, Failed> {
    match open_page(chip, page) {
        Ok(layout) => {
            print_layout(rt, page, layout)?;
            Ok(true)
        }
        Err(fault) => {
            println!(rt; "page {page}: {}", meaning(fault.check))?;
            println!(rt; "  {fault}")?;
            Ok(false)
        }
    }
}

fn print_pages(rt: &HostRuntime, chip: &mut Chip, found: &Directories) -> Result<(), Failed> {
    println!(rt; "byte order: {}", order_name(found.endian))?;
    println!(rt; "directories: {}", found.count)?;
    let mut all = true;
    for page in 0..found.count {
        all &= print_page(rt, chip, page)?;
    }
    if all { Ok(()) } else { Err(Failed::Refused) }
}

// Prints the byte order of some bytes and what their pages are, or the faults.
pub fn print_info(rt: &HostRuntime, name: &str, bytes: &[u8]) -> Result<(), Failed> {
    println!(rt; "{name}: {} bytes", bytes.len())?;
    let mut chip = Chip::new(bytes);
    let found = accepted(rt, walk(&mut chip))?;
    print_pages(rt, &mut chip, &found)
}
