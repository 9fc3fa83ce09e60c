// A rectangle of a grid, as a grid.
ghost use Rattle.std.specs.Prelude.{◌≡◌};
ghost use Rattle.raster.specs.Turns.{Unchanged};
ghost use Rattle.raster.specs.Views.{crop_of, fits};
ghost use Rattle.raster.specs.Kept.{through};
ghost use Rattle.raster.specs.Layers.{cropped};
ghost use Rattle.raster.specs.Soundness.{cropped_sound};

use crate::grid::*;
use faults::fault::{Check, Fault};

// A rectangle of the grid below; empty if a side is 0 or an edge is passed.
#[derive(Drop)]
pub struct Crop<G> {
    below: G,
    area: Area,
}

impl<G: Grid> Crop<G> {
    pub fn new(below: G, area: Area) -> Crop<G>
        ensures picture { cropped G.Grid.picture result ≡ crop_of (G.Grid.picture below) area }
        ensures held { result.below ≡ below }
        ensures unchanged { Unchanged }
    {
        Crop { below, area }
    }

    pub fn into_below(self) -> G
        ensures { result ≡ self.below }
    {
        let Crop { below, area: _ } = self;
        below
    }
}

impl<G: Grid> Grid for Crop<G> {
    ghost picture = { cropped G.Grid.picture };

    ghost sound = { cropped_sound G.Grid.picture G.Grid.sound };

    ghost keeps = { through (λ l. l.below) G.Grid.picture G.Grid.keeps };

    fn size(&self) -> Size {
        if fits(&self.below, self.area) {
            Size {
                width: self.area.width,
                height: self.area.height,
            }
        } else {
            Size::EMPTY
        }
    }

    fn kind(&self) -> Kind {
        if fits(&self.below, self.area) {
            self.below.kind()
        } else {
            Kind::EMPTY
        }
    }

    fn pixel(&mut self, x: u32, y: u32) -> Result<u32, Fault> {
        let size = self.size();
        if x >= size.width || y >= size.height {
            return Err(Check::Outside.fault());
        }
        self.below.pixel(self.area.x + x, self.area.y + y)
    }
}

// Whether an area has sides above 0 and passes no edge of the grid.
pub fn fits<G: Grid>(grid: &G, area: Area) -> bool
    ensures { result ≡ fits (G.picture grid.now) area }
{
    area.fits(grid.size())
}
