// The header of a file.
ghost use Rattle.std.specs.Prelude.{◌≡◌};
ghost use Rattle.plans.specs.Blocks.{header};

use octets::endian::Endian;
use octets::word::Word;

// The eight bytes of a header that links to a directory at a place.
pub fn header_bytes(endian: Endian, place: u32) -> [u8; 8]
    ensures { result ≡ header endian place }
{
    let [a, b, c, d]: [u8; 4] = place.to_bytes(endian);
    match endian {
        Endian::Little => [73, 73, 42, 0, a, b, c, d],
        Endian::Big => [77, 77, 0, 42, a, b, c, d],
    }
}
