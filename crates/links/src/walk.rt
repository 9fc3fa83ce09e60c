// The checks of the header and of the links.
ghost use Rattle.std.specs.Prelude.{◌≡◌, ℕ, ◌≤◌, List, length};
ghost use Rattle.store.specs.Looking.{Looked};
ghost use Rattle.links.specs.Links.{named, headed, has, stray, bad_count, link_checked, directory_checked, followed, listed, linked, walked};
ghost use Rattle.links.specs.Chain.{ChainFound, ChainLocal};

use crate::directories::{Directories, MOST};
use arrayvec::ArrayVec;
use faults::fault::{Check, Fault};
use octets::endian::Endian;
use reads::numbers::{read, read_array};
use store::traits::Store;

// The byte order that the first four bytes name.
fn order_of(head: [u8; 4]) -> Result<Endian, Fault>
    ensures { result ≡ named head }
{
    match &head {
        b"II*\0" => Ok(Endian::Little),
        b"MM\0*" => Ok(Endian::Big),
        _ => Err(Check::Magic.fault()),
    }
}

// The byte order of a file.
fn check_header<S: Store>(store: &mut S) -> Result<Endian, Fault>
    ensures value { result ≡ headed (S.Store.seen store.old) }
    ensures looked { Looked S.Store.seen S.Store.may S.Store.trail store.old store.new }
{
    if store.length() < 8 {
        return Err(Check::Short.fault());
    }
    order_of(read_array(store, 0))
}

// Whether no directory of a file of n bytes can stand where a link leads.
fn is_stray(n: u32, link: u32) -> bool
    ensures { result ≡ stray n link }
{
    link % 2 == 1 || link < 8 || link as u64 + 2 > n as u64
}

// Whether no directory has so many entries.
fn is_bad_count(entries: u16) -> bool
    ensures { result ≡ bad_count entries }
{
    entries == 0 || entries > 64
}

// Whether a link leads to a directory that was met.
fn is_met(met: &ArrayVec<u32, MOST>, link: u32) -> bool
    ensures { result ≡ has met.now.items link }
{
    met.contains(&link)
}

// The checks of a link that stands at `field`, after the directories met.
fn check_link(n: u32, met: &ArrayVec<u32, MOST>, field: u32, link: u32) -> Result<(), Fault>
    ensures { result ≡ link_checked n met.now.items field link }
{
    let page = met.len() as u32;
    if is_stray(n, link) {
        return Err(Check::Link.fault_at(page, 0, field));
    }
    if is_met(met, link) {
        return Err(Check::Cycle.fault_at(page, 0, field));
    }
    if met.is_full() {
        return Err(Check::Chain.fault_at(page, 0, field));
    }
    Ok(())
}

// The checks of the directory at a place: the place of its link, or the first fault.
fn check_directory(n: u32, page: u32, place: u32, entries: u16) -> Result<u32, Fault>
    ensures { result ≡ directory_checked n page place entries }
{
    if is_bad_count(entries) {
        return Err(Check::Count.fault_at(page, 0, place));
    }
    let end = place as u64 + 2 + 12 * entries as u64;
    if end + 4 > n as u64 {
        return Err(Check::Torn.fault_at(page, 0, place));
    }
    Ok(end as u32)
}

// Follows a link that stands at `field`, after the directories met: the place of the next link, or the first fault.
fn follow<S: Store>(
    store: &mut S,
    endian: Endian,
    met: &ArrayVec<u32, MOST>,
    field: u32,
    link: u32,
) -> Result<u32, Fault>
    ensures value { result ≡ followed endian (S.Store.seen store.old) met.now.items field link }
    ensures looked { Looked S.Store.seen S.Store.may S.Store.trail store.old store.new }
{
    let n = store.length();
    check_link(n, met, field, link)?;
    let entries: u16 = read(store, endian, link);
    check_directory(n, met.len() as u32, link, entries)
}

// The directories at the places met.
fn list_places(endian: Endian, met: &ArrayVec<u32, MOST>) -> Directories
    ensures { result ≡ listed endian met.now.items }
{
    let mut places = [0u32; MOST];
    places[..met.len()].copy_from_slice(met);
    Directories {
        endian,
        count: met.len() as u32,
        places,
    }
}

// The directories of a file of a byte order, or the first fault.
fn follow_links<S: Store>(store: &mut S, endian: Endian) -> Result<Directories, Fault>
    requires { 8 ≤ length (S.Store.seen store.old) }
    ensures value { result ≡ linked endian (S.Store.seen store.old) }
    ensures looked { Looked S.Store.seen S.Store.may S.Store.trail store.old store.new }
{
    let mut places: ArrayVec<u32, MOST> = ArrayVec::new();
    let mut field = 4;
    // How many links there are only the links say: a loop, which ends since no more than MOST are followed.
    loop {
        let link: u32 = read(store, endian, field);
        if link == 0 && !places.is_empty() {
            return Ok(list_places(endian, &places));
        }
        field = follow(store, endian, &places, field, link)?;
        places.push(link);
    }
}

// The directories of a file, or the first fault.
pub fn walk<S: Store>(store: &mut S) -> Result<Directories, Fault>
    ensures value { result ≡ walked (S.Store.seen store.old) }
    ensures looked { Looked S.Store.seen S.Store.may S.Store.trail store.old store.new }
{
    let endian = check_header(store)?;
    follow_links(store, endian)
}

// The theorem that the walk accepts just the files whose directories are well linked, and finds those.
pub fn walk_finds_the_chain()
    ensures { (bs : List ℕ) → ChainFound bs }
{}

// The theorem that the walk looks at the header and at each directory's count and link alone.
pub fn walk_is_local()
    ensures { ChainLocal }
{}
