// How a Netpbm file lays pixels out.
ghost use Rattle.std.specs.Prelude.{◌≡◌, ◌*◌, ◌≤◌};
ghost use Rattle.raster.specs.declared.grid.Kind.{Kind};
ghost use Rattle.pnm.specs.Netpbm.{colour, format, stride};
ghost use Rattle.pnm.specs.Layouts.{LaysOut};

use raster::grid::*;

// Eight bilevel pixels to a byte in a PBM file, a byte to a pixel in a PGM file, three to a pixel in a PPM file.
#[derive(Clone, Copy, PartialEq, Eq, Debug)]
pub enum Layout {
    Bitmap,
    Greymap,
    Pixmap,
}

// Whether pixels have a red, a green and a blue.
pub fn is_colour(kind: Kind) -> bool
    ensures { result ≡ colour kind }
{
    matches!(kind.photometric, Photometric::Rgb)
}

impl Layout {
    // The layout of a kind of pixels.
    pub fn of(kind: Kind) -> Layout
        ensures { LaysOut result kind }
    {
        match (kind.bits, is_colour(kind)) {
            (1, _) => Layout::Bitmap,
            (_, true) => Layout::Pixmap,
            _ => Layout::Greymap,
        }
    }

    // The digit that names the format.
    pub fn digit(self) -> u8
        ensures { (kind : Kind) → LaysOut self kind → result ≡ format kind }
    {
        match self {
            Layout::Bitmap => b'4',
            Layout::Greymap => b'5',
            Layout::Pixmap => b'6',
        }
    }

    // The bytes of a row.
    pub fn row_len(self, width: u32) -> usize
        ensures len { (kind : Kind) → LaysOut self kind → result ≡ stride kind width }
        ensures short { result ≤ 3 * width }
    {
        let width = width as usize;
        match self {
            Layout::Bitmap => width.div_ceil(8),
            Layout::Greymap => width,
            Layout::Pixmap => 3 * width,
        }
    }
}
