// A grid over pixels that are lent.
ghost use Rattle.std.specs.Prelude.{◌≡◌, ℕ, ◌+◌, ◌*◌, ◌%◌, ◌<◌, ◌&&◌, List, slice_index};
ghost use Rattle.raster.specs.Picture.{allowed, levels};
ghost use Rattle.sheets.specs.Sheets.{sheet_of, sheet_sound, sized};

use faults::fault::{Check, Fault};
use raster::grid::*;

// Pixel numbers row by row, 0 past the last; of each number the bits that the kind has.
// Empty if a side is 0 or above 16,384, or the kind is not allowed.
#[derive(Clone, Copy)]
pub struct Sheet<'a> {
    size: Size,
    kind: Kind,
    pixels: &'a [u32],
}

impl<'a> Sheet<'a> {
    pub fn new(size: Size, kind: Kind, pixels: &'a [u32]) -> Self
        ensures { sheet_of result.size result.kind result.pixels.now ≡ sheet_of size kind pixels.now }
    {
        Sheet { size, kind, pixels }
    }
}

impl Grid for Sheet<'_> {
    ghost picture = { λ s. sheet_of s.size s.kind s.pixels.now };

    ghost sound = { λ s. sheet_sound s.size s.kind s.pixels.now };

    fn size(&self) -> Size {
        if shows(self.size, self.kind) {
            self.size
        } else {
            Size::EMPTY
        }
    }

    fn kind(&self) -> Kind {
        if shows(self.size, self.kind) {
            self.kind
        } else {
            Kind::EMPTY
        }
    }

    fn pixel(&mut self, x: u32, y: u32) -> Result<u32, Fault> {
        if !shows(self.size, self.kind) || x >= self.size.width || y >= self.size.height {
            return Err(Check::Outside.fault());
        }
        let place = y as usize * self.size.width as usize + x as usize;
        Ok(number_at(self.pixels, place) % self.kind.levels())
    }
}

// Whether a grid may have these sides and this kind.
fn shows(size: Size, kind: Kind) -> bool
    ensures { result ≡ (sized size && allowed kind) }
{
    (1..=16384).contains(&size.width) && (1..=16384).contains(&size.height) && kind.is_allowed()
}

// The number at a place, 0 past the last.
fn number_at(pixels: &[u32], place: usize) -> u32
    ensures { result ≡ slice_index pixels.now place }
{
    pixels.get(place).copied().unwrap_or(0)
}
