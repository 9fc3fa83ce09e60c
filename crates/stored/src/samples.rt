// Samples read from any store.
ghost use Rattle.std.specs.Prelude.{◌≡◌, ◌+◌, ◌-◌, ◌*◌, ◌%◌, ◌^◌, ◌<◌};
ghost use Rattle.store.specs.Looking.{Looked};
ghost use Rattle.octets.specs.Digits.{digit};
ghost use Rattle.octets.specs.Rows.{Bits, per_byte};
ghost use Rattle.stored.specs.Depths.{bits_of, depth_of};
ghost use Rattle.stored.specs.Reading.{sample_at, rgb_at, pixel_from};

use raster::grid::{Kind, Photometric};
use reads::numbers::read_array;
use store::traits::Store;

// The bits that a sample may have.
#[derive(Clone, Copy)]
pub enum Depth {
    One,
    Four,
    Eight,
}

impl Depth {
    // The depth of so many bits, if a sample may have as many.
    pub fn of(bits: u16) -> Option<Depth>
        ensures { result ≡ depth_of bits }
    {
        match bits {
            1 => Some(Depth::One),
            4 => Some(Depth::Four),
            8 => Some(Depth::Eight),
            _ => None,
        }
    }

    pub fn bits(self) -> u32
        ensures { result ≡ bits_of self }
    {
        match self {
            Depth::One => 1,
            Depth::Four => 4,
            Depth::Eight => 8,
        }
    }

    // How far sample s of a row stands above the lowest bit of its byte: the first of a byte is in the highest bits.
    pub fn shift(self, s: u32) -> u32
        ensures { let bits = bits_of self in result ≡ bits * (per_byte bits - 1 - s % per_byte bits) }
    {
        match self {
            Depth::One => 7 - s % 8,
            Depth::Four => 4 * (1 - s % 2),
            Depth::Eight => 0,
        }
    }

    // Sample s of a row, which stands in a byte.
    pub fn sample(self, byte: u8, s: u32) -> u32
        ensures { let bits = bits_of self in result ≡ digit (2 ^ bits) (per_byte bits) byte (s % per_byte bits) }
    {
        let above = byte as u32 >> self.shift(s);
        match self {
            Depth::One => above % 2,
            Depth::Four => above % 16,
            Depth::Eight => above % 256,
        }
    }
}

// Red, green and blue as one number.
pub fn rgb(red: u8, green: u8, blue: u8) -> u32
    ensures value { result ≡ 65536 * red + 256 * green + blue }
    ensures bytes { (red < 256) × (green < 256) × (blue < 256) }
{
    u32::from_be_bytes([0, red, green, blue])
}

// Sample s of a row, in the byte at a place, and 0 past the end; one read of the store.
pub fn read_sample<S: Store>(store: &mut S, place: u32, depth: Depth, s: u32) -> u32
    ensures value { let bits = bits_of depth in result ≡ sample_at (S.Store.seen store.old) bits place (s % per_byte bits) }
    ensures looked { Looked S.Store.seen S.Store.may S.Store.trail store.old store.new }
{
    let [byte] = read_array::<1, S>(store, place);
    depth.sample(byte, s)
}

// The three bytes from a place on as one number, and 0 where they do not all lie in the store; one read of the store.
pub fn read_rgb<S: Store>(store: &mut S, place: u32) -> u32
    ensures value { result ≡ rgb_at (S.Store.seen store.old) place }
    ensures looked { Looked S.Store.seen S.Store.may S.Store.trail store.old store.new }
{
    let [red, green, blue] = read_array::<3, S>(store, place);
    rgb(red, green, blue)
}

// The pixel of a kind that begins with sample s of its row, in the byte at a place; at most one read of the store.
pub fn read_pixel<S: Store>(store: &mut S, kind: Kind, place: u64, s: u32) -> u32
    ensures value { Bits kind.bits → result ≡ pixel_from (S.Store.seen store.old) kind.photometric kind.bits place (s % per_byte kind.bits) }
    ensures looked { Looked S.Store.seen S.Store.may S.Store.trail store.old store.new }
{
    let Some(depth) = Depth::of(kind.bits) else {
        return 0;
    };
    let Ok(place) = u32::try_from(place) else {
        return 0;
    };
    match kind.photometric {
        Photometric::Rgb => read_rgb(store, place),
        _ => read_sample(store, place, depth, s),
    }
}
