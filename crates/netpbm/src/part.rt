// A rectangle of a lent grid, as a grid.
ghost use Rattle.std.specs.Prelude.{◌≡◌, true};
ghost use Rattle.raster.specs.Views.{fits, rectangle};

use faults::fault::{Check, Fault};
use raster::grid::*;

// A rectangle that passes no edge of the grid.
#[derive(Drop)]
pub struct Part<'g, G: Grid> {
    pub grid: &'g mut G,
    pub area: Area,
    pub ghost fits: { fits (G.picture grid.now) area ≡ true },
}

impl<G: Grid> Grid for Part<'_, G> {
    ghost use Rattle.raster.specs.Soundness.{rectangle_sound};
    ghost use Rattle.netpbm.specs.Asked.{lent};

    ghost picture = { λ p. rectangle (G.picture p.grid.now) p.area };

    ghost sound = { λ p. rectangle_sound (G.picture p.grid.now) p.area (G.sound p.grid.now) p.fits };

    ghost keeps = { lent (λ p. p.grid) G.picture G.keeps };

    fn size(&self) -> Size {
        Size {
            width: self.area.width,
            height: self.area.height,
        }
    }

    fn kind(&self) -> Kind {
        self.grid.kind()
    }

    fn pixel(&mut self, x: u32, y: u32) -> Result<u32, Fault> {
        if x >= self.area.width || y >= self.area.height {
            return Err(Check::Outside.fault());
        }
        self.grid.pixel(self.area.x + x, self.area.y + y)
    }
}
