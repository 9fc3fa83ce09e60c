// The bytes of a number.
ghost use Rattle.std.specs.Prelude.{◌≡◌, ◌<◌, ◌≤◌};
ghost use Rattle.octets.specs.Digits.{byte_of};
ghost use Rattle.heads.specs.Contents.{lower_bytes};

use octets::endian::Endian;

// Byte t of the `size` lowest bytes of a number.
// No Word of octets: numbers of more than 32 bits come too, and a narrower type would ask more of callers.
pub fn number_byte(endian: Endian, size: u32, number: u64, t: u32) -> u8
    requires one { t < size }
    requires few { size ≤ 8 }
    ensures { result ≡ byte_of endian size number t }
{
    ((number >> (8 * lower(endian, size, t))) % 256) as u8
}

// How many of the `size` bytes are lower than byte t.
fn lower(endian: Endian, size: u32, t: u32) -> u32
    requires { t < size }
    ensures value { result ≡ lower_bytes endian size t }
    ensures few { result < size }
{
    match endian {
        Endian::Little => t,
        Endian::Big => size - 1 - t,
    }
}
