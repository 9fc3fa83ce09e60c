// Numbers of two and of four bytes, in either byte order.
ghost use Rattle.std.specs.Prelude.{◌≡◌};
ghost use Rattle.octets.specs.Digits.{number};
ghost use Rattle.octets.specs.Rows.{byte};

use crate::endian::Endian;
use crate::word::Word;

impl Endian {
    // The number in two bytes.
    pub fn short(self, bytes: [u8; 2]) -> u16
        ensures { result ≡ number self 2 (byte bytes) }
    {
        u16::from_bytes(self, bytes)
    }

    // The number in four bytes.
    pub fn long(self, bytes: [u8; 4]) -> u32
        ensures { result ≡ number self 4 (byte bytes) }
    {
        u32::from_bytes(self, bytes)
    }
}
