// An entry of a directory, and the checks of one.
ghost use Rattle.std.specs.Prelude.{◌≡◌, ◌+◌, ◌^◌, ◌<◌};
ghost use Rattle.entries.specs.Entries.{size_of, home_of, raw_at, entry_of, shape_of, fits, size, astray, accepted};

use crate::field_type::FieldType;
use faults::fault::{Check, Fault};
use octets::endian::Endian;
use octets::word::Word;

// A directory of a file: its page, its place and the number of its entries.
#[derive(Clone, Copy)]
pub struct Directory {
    pub endian: Endian,
    pub page: u32,
    pub place: u32,
    pub entries: u32,
}

// The numbers in the twelve bytes of an entry. The last four bytes hold the values, or their place.
#[derive(Clone, Copy)]
pub struct RawEntry {
    pub tag: u16,
    pub kind: u16,
    pub count: u32,
    pub last: u32,
}

// An entry by its tag, the number of its type, how many values it has, its place, and the place of its first value.
// The number is no FieldType, since an entry of an unlisted tag may have any.
#[derive(Clone, Copy)]
pub struct Entry {
    pub tag: u16,
    pub kind: u16,
    pub count: u32,
    pub place: u32,
    pub values: u32,
}

// What the field of a listed tag must be.
#[derive(Clone, Copy)]
pub enum Shape {
    // One SHORT or LONG.
    One,
    // One SHORT.
    OneShort,
    // One SHORT or three.
    Bits,
    // SHORTs or LONGs, one or more.
    Many,
}

// What the field of a tag must be, if the tag is listed.
fn shape_of(tag: u16) -> Option<Shape>
    ensures { result ≡ shape_of tag }
{
    match tag {
        256 | 257 | 278 | 322 | 323 => Some(Shape::One),
        259 | 262 | 266 | 274 | 277 | 284 => Some(Shape::OneShort),
        258 => Some(Shape::Bits),
        273 | 279 | 324 | 325 => Some(Shape::Many),
        _ => None,
    }
}

impl Shape {
    // Whether a field of this shape may have such a type and count.
    fn admits(self, kind: u16, count: u32) -> bool
        ensures { result ≡ fits self kind count }
    {
        let short = FieldType::Short.number();
        let long = FieldType::Long.number();
        match self {
            Shape::One => (kind == short || kind == long) && count == 1,
            Shape::OneShort => kind == short && count == 1,
            Shape::Bits => kind == short && (count == 1 || count == 3),
            Shape::Many => (kind == short || kind == long) && count > 0,
        }
    }
}

// The bytes that so many values of a type take, and 0 for a number that names no type.
pub fn size_of(kind: u16, count: u32) -> u64
    ensures value { result ≡ size_of kind count }
    ensures few { result < 2 ^ 40 }
{
    let unit = FieldType::try_from(kind).map_or(0, |kind| kind.size());
    unit as u64 * count as u64
}

// Where values of some size begin, by the place of their entry and the number in its last four bytes.
pub fn home_of(place: u32, size: u64, last: u32) -> u32
    requires { place + 12 < 2 ^ 32 }
    ensures { result ≡ home_of place size last }
{
    if size <= 4 { place + 8 } else { last }
}

impl RawEntry {
    // The numbers in twelve bytes.
    pub fn decode(endian: Endian, b: [u8; 12]) -> RawEntry
        ensures { result ≡ raw_at endian b 0 }
    {
        RawEntry {
            tag: u16::from_bytes(endian, [b[0], b[1]]),
            kind: u16::from_bytes(endian, [b[2], b[3]]),
            count: u32::from_bytes(endian, [b[4], b[5], b[6], b[7]]),
            last: u32::from_bytes(endian, [b[8], b[9], b[10], b[11]]),
        }
    }

    // The entry of these numbers at a place.
    pub fn at(self, place: u32) -> Entry
        requires { place + 12 < 2 ^ 32 }
        ensures { result ≡ entry_of place self }
    {
        Entry {
            tag: self.tag,
            kind: self.kind,
            count: self.count,
            place,
            values: home_of(place, size_of(self.kind, self.count), self.last),
        }
    }
}

impl Entry {
    // The bytes that the values take.
    pub fn size(self) -> u64
        ensures value { result ≡ size self }
        ensures few { result < 2 ^ 40 }
    {
        size_of(self.kind, self.count)
    }

    // Whether the values do not fit the entry, and do not lie where they may in a file of n bytes.
    fn is_astray(self, n: u32) -> bool
        ensures { result ≡ astray n self }
    {
        let size = self.size();
        let place = self.values;
        size > 4 && (place % 2 == 1 || place < 8 || place as u64 + size > n as u64)
    }

    // The checks of an entry of a page in a file of n bytes: the least tag that the next may have, or the first fault.
    pub fn accept(self, n: u32, page: u32, least: u32) -> Result<u32, Fault>
        ensures { result ≡ accepted n page least self }
    {
        let tag = self.tag;
        let place = self.place;
        if (tag as u32) < least {
            return Err(Check::Order.fault_at(page, 0, place));
        }
        if let Some(shape) = shape_of(tag) {
            if !shape.admits(self.kind, self.count) {
                return Err(Check::Field.fault_at(page, tag, place));
            }
            if self.is_astray(n) {
                return Err(Check::Value.fault_at(page, tag, place));
            }
        }
        Ok(tag as u32 + 1)
    }
}
