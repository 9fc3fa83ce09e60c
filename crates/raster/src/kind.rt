// The kinds of pixels that a grid may have.
ghost use Rattle.std.specs.Prelude.{◌≡◌, true};
ghost use Rattle.raster.specs.Picture.{allowed, levels, number_of, numbered};

use crate::grid::*;

impl Photometric {
    // The number of this photometric interpretation.
    pub fn number(self) -> u16
        ensures { result ≡ number_of self }
    {
        self as u16
    }
}

// A number that no photometric interpretation has.
#[derive(Clone, Copy, PartialEq, Eq, Debug)]
pub struct UnknownPhotometric {
    pub number: u32,
}

impl TryFrom<u32> for Photometric {
    type Error = UnknownPhotometric;

    ghost try_from_gives = { λ number answer. answer ≡ numbered number };

    // The photometric interpretation of this number.
    fn try_from(number: u32) -> Result<Photometric, UnknownPhotometric> {
        match number {
            0 => Ok(Photometric::WhiteIsZero),
            1 => Ok(Photometric::BlackIsZero),
            2 => Ok(Photometric::Rgb),
            _ => Err(UnknownPhotometric { number }),
        }
    }
}

impl Kind {
    // The kind of an empty grid.
    pub const EMPTY: Kind = Kind {
        photometric: Photometric::BlackIsZero,
        bits: 1,
    };

    // Whether a grid may have this kind.
    pub fn is_allowed(self) -> bool
        ensures { result ≡ allowed self }
    {
        match self.photometric {
            Photometric::Rgb => self.bits == 8,
            _ => matches!(self.bits, 1 | 4 | 8),
        }
    }

    // How many pixel numbers an allowed kind has.
    pub fn levels(self) -> u32
        requires { allowed self ≡ true }
        ensures { result ≡ levels self }
    {
        match self.photometric {
            Photometric::Rgb => 1 << 24,
            _ => 1 << self.bits,
        }
    }
}
