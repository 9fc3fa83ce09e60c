// Reads that are never refused: past the end of the store there is nothing to get.
ghost use Rattle.std.specs.Prelude.{◌≡◌, length};
ghost use Rattle.octets.specs.Rows.{byte};
ghost use Rattle.store.specs.Looking.{Looked};
ghost use Rattle.reads.specs.Reads.{part_or, part, word_at, short_at, long_at};

use octets::endian::Endian;
use octets::word::Word;
use store::traits::Store;

// Fills the buffer with the bytes from a place on, or leaves it as it was if they do not all lie in the store.
pub fn fill<S: Store>(store: &mut S, place: u32, buffer: &mut [u8])
    ensures got { buffer.new ≡ part_or buffer.old (S.Store.seen store.old) place (length buffer.old) }
    ensures looked { Looked S.Store.seen S.Store.may S.Store.trail store.old store.new }
{
    let _ = store.read(place, buffer);
}

// The N bytes from a place on, or N zeros if they do not all lie in the store.
pub fn read_array<const N: usize, S: Store>(store: &mut S, place: u32) -> [u8; N]
    ensures bytes { result ≡ part (S.Store.seen store.old) place N }
    ensures looked { Looked S.Store.seen S.Store.may S.Store.trail store.old store.new }
{
    let mut bytes = [0; N];
    fill(store, place, &mut bytes);
    bytes
}

// The number in the bytes from a place on, or 0 if they do not all lie in the store.
pub fn read<W: Word<N>, const N: usize, S: Store>(store: &mut S, endian: Endian, place: u32) -> W
    ensures value { W.value result ≡ word_at endian (S.Store.seen store.old) place N }
    ensures looked { Looked S.Store.seen S.Store.may S.Store.trail store.old store.new }
{
    W::from_bytes(endian, read_array(store, place))
}

// The byte at a place, or 0 past the end.
pub fn read_byte<S: Store>(store: &mut S, place: u32) -> u8
    ensures value { result ≡ byte (S.Store.seen store.old) place }
    ensures looked { Looked S.Store.seen S.Store.may S.Store.trail store.old store.new }
{
    let [byte] = read_array::<1, S>(store, place);
    byte
}

// The number in the two bytes from a place on, or 0 if they do not both lie in the store.
pub fn read_short<S: Store>(store: &mut S, endian: Endian, place: u32) -> u16
    ensures value { result ≡ short_at endian (S.Store.seen store.old) place }
    ensures looked { Looked S.Store.seen S.Store.may S.Store.trail store.old store.new }
{
    read::<u16, 2, S>(store, endian, place)
}

// The number in the four bytes from a place on, or 0 if they do not all lie in the store.
pub fn read_long<S: Store>(store: &mut S, endian: Endian, place: u32) -> u32
    ensures value { result ≡ long_at endian (S.Store.seen store.old) place }
    ensures looked { Looked S.Store.seen S.Store.may S.Store.trail store.old store.new }
{
    read::<u32, 4, S>(store, endian, place)
}
