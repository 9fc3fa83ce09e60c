// Numbers that a file holds in either byte order.
ghost use Rattle.std.specs.Prelude.{◌≡◌, ◌<◌, ◌≤◌, ◌^◌, ℕ};
ghost use Rattle.octets.specs.Digits.{number};
ghost use Rattle.octets.specs.Numbers.{number_bytes};
ghost use Rattle.octets.specs.Rows.{byte};
ghost use Rattle.std.proofs.Common.{rules};

use crate::endian::Endian;

// A number of N bytes.
pub trait Word<const N: usize>: Sized {
    // The number.
    ghost value: { Self → ℕ };

    // The number in the bytes.
    fn from_bytes(endian: Endian, bytes: [u8; N]) -> Self
        ensures { value result ≡ number endian N (byte bytes.entry) };

    // The number's bytes.
    fn to_bytes(self, endian: Endian) -> [u8; N]
        ensures bytes { result ≡ number_bytes endian N (value self) }
        ensures fits { value self < 256 ^ N };

    // A word has at most eight bytes.
    ghost narrow: { N ≤ 8 };

    // Words of the same number are the same.
    ghost same: { (x y : Self) → value x ≡ value y → x ≡ y };
}

impl Word<2> for u16 {
    ghost value = { λ x. x };

    ghost narrow = { Prim.search rules };

    ghost same = { λ x y e. e };

    fn from_bytes(endian: Endian, bytes: [u8; 2]) -> u16
        ensures { result ≡ number endian 2 (byte bytes) }
    {
        match endian {
            Endian::Little => u16::from_le_bytes(bytes),
            Endian::Big => u16::from_be_bytes(bytes),
        }
    }

    fn to_bytes(self, endian: Endian) -> [u8; 2] {
        match endian {
            Endian::Little => self.to_le_bytes(),
            Endian::Big => self.to_be_bytes(),
        }
    }
}

impl Word<4> for u32 {
    ghost value = { λ x. x };

    ghost narrow = { Prim.search rules };

    ghost same = { λ x y e. e };

    fn from_bytes(endian: Endian, bytes: [u8; 4]) -> u32
        ensures { result ≡ number endian 4 (byte bytes) }
    {
        match endian {
            Endian::Little => u32::from_le_bytes(bytes),
            Endian::Big => u32::from_be_bytes(bytes),
        }
    }

    fn to_bytes(self, endian: Endian) -> [u8; 4] {
        match endian {
            Endian::Little => self.to_le_bytes(),
            Endian::Big => self.to_be_bytes(),
        }
    }
}

// A number written and read again in one byte order is the same.
pub fn reread<W: Word<N>, const N: usize>(endian: Endian, word: W) -> W
    ensures { result ≡ word }
{
    W::from_bytes(endian, word.to_bytes(endian))
}
