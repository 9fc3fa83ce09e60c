// The types of an entry's values.
ghost use Rattle.std.specs.Prelude.{◌≡◌, ◌≤◌};
ghost use Rattle.entries.specs.Types.{number_of, type_of, type_size};

// The type of an entry's values, with its number in a file.
#[derive(Clone, Copy, PartialEq, Eq, Debug)]
pub enum FieldType {
    Byte = 1,
    Ascii = 2,
    Short = 3,
    Long = 4,
    Rational = 5,
    SignedByte = 6,
    Undefined = 7,
    SignedShort = 8,
    SignedLong = 9,
    SignedRational = 10,
    Float = 11,
    Double = 12,
}

// A number that names no type.
#[derive(Clone, Copy, PartialEq, Eq, Debug)]
pub struct UnknownType {
    pub number: u16,
}

impl TryFrom<u16> for FieldType {
    type Error = UnknownType;

    ghost try_from_gives = { λ number r. r ≡ type_of number };

    fn try_from(number: u16) -> Result<FieldType, UnknownType> {
        match number {
            1 => Ok(FieldType::Byte),
            2 => Ok(FieldType::Ascii),
            3 => Ok(FieldType::Short),
            4 => Ok(FieldType::Long),
            5 => Ok(FieldType::Rational),
            6 => Ok(FieldType::SignedByte),
            7 => Ok(FieldType::Undefined),
            8 => Ok(FieldType::SignedShort),
            9 => Ok(FieldType::SignedLong),
            10 => Ok(FieldType::SignedRational),
            11 => Ok(FieldType::Float),
            12 => Ok(FieldType::Double),
            _ => Err(UnknownType { number }),
        }
    }
}

impl FieldType {
    // The number of the type in a file.
    pub fn number(self) -> u16
        ensures { result ≡ number_of self }
    {
        self as u16
    }

    // The bytes that a value takes.
    pub fn size(self) -> u8
        ensures value { result ≡ type_size self }
        ensures few { result ≤ 8 }
    {
        match self {
            FieldType::Byte | FieldType::Ascii | FieldType::SignedByte | FieldType::Undefined => 1,
            FieldType::Short | FieldType::SignedShort => 2,
            FieldType::Long | FieldType::SignedLong | FieldType::Float => 4,
            FieldType::Rational | FieldType::SignedRational | FieldType::Double => 8,
        }
    }
}
