// Entries and their values, read from any store.
ghost use Rattle.std.specs.Prelude.{◌≡◌, ◌+◌, ◌*◌, ◌^◌, ◌<◌, ◌≤◌, length};
ghost use Rattle.store.specs.Looking.{Looked};
ghost use Rattle.entries.specs.Entries.{entry_at, Inside};
ghost use Rattle.entries.specs.Fields.{fielded, number_at, nth_or, count_or};

use crate::entry::*;
use crate::fields::*;
use faults::fault::Fault;
use octets::endian::Endian;
use reads::numbers::{read, read_array};
use store::traits::Store;

// The entry at a place; one read of the store.
pub fn read_entry<S: Store>(store: &mut S, endian: Endian, place: u32) -> Entry
    requires within { place + 12 ≤ length (S.Store.seen store.old) }
    ensures value { result ≡ entry_at endian (S.Store.seen store.old) place }
    ensures looked { Looked S.Store.seen S.Store.may S.Store.trail store.old store.new }
{
    RawEntry::decode(endian, read_array(store, place)).at(place)
}

// The listed tags of a directory whose entries pass their checks, or the first fault; one read an entry.
pub fn scan<S: Store>(store: &mut S, directory: Directory) -> Result<Fields, Fault>
    requires inside { Inside (S.Store.seen store.old) directory }
    ensures value { result ≡ fielded (S.Store.seen store.old) directory }
    ensures looked { Looked S.Store.seen S.Store.may S.Store.trail store.old store.new }
{
    let n = store.length();
    let mut least = 0;
    let mut fields = Fields::none();
    // Each entry is read from the store and may end the scan: a `for` with `?`.
    for i in 0..directory.entries {
        let entry = read_entry(store, directory.endian, directory.place + 2 + 12 * i);
        least = entry.accept(n, directory.page, least)?;
        fields = fields.with(entry);
    }
    Ok(fields)
}

// Number k of some, and 0 where it does not lie in the store; one read of the store.
pub fn read_number<S: Store>(store: &mut S, endian: Endian, numbers: Numbers, k: u32) -> u32
    ensures value { result ≡ number_at endian (S.Store.seen store.old) numbers k }
    ensures looked { Looked S.Store.seen S.Store.may S.Store.trail store.old store.new }
{
    let place = numbers.place_of(k);
    if place > u32::MAX as u64 {
        return 0;
    }
    match numbers.form {
        Form::Short => read::<u16, 2, S>(store, endian, place as u32) as u32,
        Form::Long => read(store, endian, place as u32),
    }
}

// Number k under a tag, and a default where there is none.
pub fn read_or<S: Store>(
    store: &mut S,
    endian: Endian,
    default: u32,
    k: u32,
    field: Option<Numbers>,
) -> u32
    ensures value { result ≡ nth_or endian (S.Store.seen store.old) default k field }
    ensures looked { Looked S.Store.seen S.Store.may S.Store.trail store.old store.new }
{
    match field {
        Some(numbers) if k < numbers.count => read_number(store, endian, numbers, k),
        _ => default,
    }
}

// How many numbers stand under a tag, and a default where it is absent.
pub fn count_or(default: u32, field: Option<Numbers>) -> u32
    ensures { result ≡ count_or default field }
{
    field.map_or(default, |numbers| numbers.count)
}
