// The values of a page's tags, read from any store.
ghost use Rattle.std.specs.Prelude.{◌≡◌};
ghost use Rattle.store.specs.Looking.{Looked};
ghost use Rattle.pages.specs.Pages.{format_of, sampling_of, sides_of, values_of};

use entries::fields::Fields;
use entries::reading::{count_or, read_or};
use octets::endian::Endian;
use pages::layout::*;
use store::traits::Store;

// A store, a byte order and tags go through these four alone; a struct of them would borrow the store and say no more.

fn read_format<S: Store>(store: &mut S, endian: Endian, fields: Fields) -> Format
    ensures value { result ≡ format_of endian (S.Store.seen store.old) fields }
    ensures looked { Looked S.Store.seen S.Store.may S.Store.trail store.old store.new }
{
    Format {
        compression: read_or(store, endian, 1, 0, fields.compression),
        fill: read_or(store, endian, 1, 0, fields.fill),
        planes: read_or(store, endian, 1, 0, fields.planes),
        orientation: read_or(store, endian, 1, 0, fields.orientation),
    }
}

fn read_sampling<S: Store>(store: &mut S, endian: Endian, fields: Fields) -> Sampling
    ensures value { result ≡ sampling_of endian (S.Store.seen store.old) fields }
    ensures looked { Looked S.Store.seen S.Store.may S.Store.trail store.old store.new }
{
    let samples = read_or(store, endian, 1, 0, fields.samples);
    Sampling {
        photometric: read_or(store, endian, 0, 0, fields.photometric),
        samples,
        given: count_or(samples, fields.bits),
        first: read_or(store, endian, 1, 0, fields.bits),
        second: read_or(store, endian, 1, 1, fields.bits),
        third: read_or(store, endian, 1, 2, fields.bits),
    }
}

fn read_sides<S: Store>(store: &mut S, endian: Endian, fields: Fields) -> Sides
    ensures value { result ≡ sides_of endian (S.Store.seen store.old) fields }
    ensures looked { Looked S.Store.seen S.Store.may S.Store.trail store.old store.new }
{
    let height = read_or(store, endian, 0, 0, fields.height);
    Sides {
        width: read_or(store, endian, 0, 0, fields.width),
        height,
        rows: read_or(store, endian, height, 0, fields.rows),
        across: read_or(store, endian, 0, 0, fields.across),
        down: read_or(store, endian, 0, 0, fields.down),
    }
}

// The values of a page's tags, but for the offsets and byte counts; one read a value.
pub fn read_values<S: Store>(store: &mut S, endian: Endian, fields: Fields) -> Values
    ensures value { result ≡ values_of endian (S.Store.seen store.old) fields }
    ensures looked { Looked S.Store.seen S.Store.may S.Store.trail store.old store.new }
{
    Values {
        format: read_format(store, endian, fields),
        sampling: read_sampling(store, endian, fields),
        sides: read_sides(store, endian, fields),
    }
}
