// The bytes of an entry.
ghost use Rattle.std.specs.Prelude.{◌≡◌, ◌<◌};
ghost use Rattle.octets.specs.Rows.{byte};
ghost use Rattle.heads.specs.Contents.{kind_of, count_of, last_of, entry_of};

use crate::numbers::number_byte;
use entries::field_type::FieldType;
use octets::endian::Endian;

// What an entry says after its tag: one SHORT or one LONG, or how many values of a type stand at a place. Of a LONG and
// of a place the four lowest bytes are written.
#[derive(Clone, Copy)]
pub enum Content {
    Short(u16),
    Long(u64),
    Placed {
        kind: FieldType,
        count: u32,
        place: u64,
    },
}

impl Content {
    // The type of the values.
    pub fn kind(self) -> FieldType
        ensures { result ≡ kind_of self }
    {
        match self {
            Content::Short(_) => FieldType::Short,
            Content::Long(_) => FieldType::Long,
            Content::Placed { kind, .. } => kind,
        }
    }

    // How many values there are.
    pub fn count(self) -> u32
        ensures { result ≡ count_of self }
    {
        match self {
            Content::Short(_) | Content::Long(_) => 1,
            Content::Placed { count, .. } => count,
        }
    }

    // Byte t of the last four bytes of the entry: the value from the left, or the place.
    pub fn last_byte(self, endian: Endian, t: u32) -> u8
        requires { t < 4 }
        ensures { result ≡ byte (last_of endian self) t }
    {
        match self {
            Content::Short(number) => {
                if t < 2 {
                    number_byte(endian, 2, number as u64, t)
                } else {
                    0
                }
            }
            Content::Long(number) => number_byte(endian, 4, number, t),
            Content::Placed { place, .. } => number_byte(endian, 4, place, t),
        }
    }
}

// Byte b of the 12 bytes of the entry of a tag.
pub fn entry_byte(endian: Endian, tag: u16, content: Content, b: u32) -> u8
    requires { b < 12 }
    ensures { result ≡ byte (entry_of endian tag content) b }
{
    if b < 2 {
        number_byte(endian, 2, tag as u64, b)
    } else if b < 4 {
        number_byte(endian, 2, content.kind().number() as u64, b - 2)
    } else if b < 8 {
        number_byte(endian, 4, content.count() as u64, b - 4)
    } else {
        content.last_byte(endian, b - 8)
    }
}
