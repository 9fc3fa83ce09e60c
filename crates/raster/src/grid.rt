// Grids of pixels, and what every grid promises.
ghost use Rattle.std.specs.Prelude.{◌≡◌};
ghost use Rattle.raster.specs.Picture.{Picture, Sound, pixel_of};
ghost use Rattle.raster.specs.Views.{area_fits};
ghost use Rattle.raster.specs.Kept.{Kept, nothing};

use faults::fault::Fault;

#[derive(Clone, Copy, PartialEq, Eq, Debug)]
pub struct Size {
    pub width: u32,
    pub height: u32,
}

impl Size {
    // The sides of an empty grid.
    pub const EMPTY: Size = Size {
        width: 0,
        height: 0,
    };
}

// A rectangle of a grid, by its first pixel and its sides.
#[derive(Clone, Copy, PartialEq, Eq, Debug)]
pub struct Area {
    pub x: u32,
    pub y: u32,
    pub width: u32,
    pub height: u32,
}

impl Area {
    // Whether it has sides above 0 and passes no edge of a picture of this size.
    pub fn fits(self, size: Size) -> bool
        ensures { result ≡ area_fits size.width size.height self }
    {
        self.width > 0
            && self.height > 0
            && self.x as u64 + self.width as u64 <= size.width as u64
            && self.y as u64 + self.height as u64 <= size.height as u64
    }
}

#[derive(Clone, Copy, PartialEq, Eq, Debug)]
pub enum Photometric {
    WhiteIsZero = 0,
    BlackIsZero = 1,
    Rgb = 2,
}

// What a pixel number means: the photometric interpretation and the bits of a sample.
#[derive(Clone, Copy, PartialEq, Eq, Debug)]
pub struct Kind {
    pub photometric: Photometric,
    pub bits: u16,
}

// Pixels by column and row. No question changes the picture.
pub trait Grid {
    ghost picture: { Self → Picture };

    // What each implementation must prove.
    ghost sound: { (g : Self) → Sound (picture g) };

    // What a question keeps besides the picture.
    ghost keeps: { Kept Self } = { nothing };

    fn size(&self) -> Size
        ensures width { result.width ≡ (picture self.now).width }
        ensures height { result.height ≡ (picture self.now).height };

    fn kind(&self) -> Kind
        ensures { result ≡ (picture self.now).kind };

    // The pixel number at column x, row y; Outside where either is not below its side.
    fn pixel(&mut self, x: u32, y: u32) -> Result<u32, Fault>
        ensures answer { result ≡ pixel_of (picture self.old) x y }
        ensures kept { picture self.new ≡ picture self.old }
        ensures keeps { keeps.across self.old self.new };
}
