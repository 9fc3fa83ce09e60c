// A grid that counts how often it is asked.
use faults::fault::Fault;
use raster::grid::*;

#[derive(Drop)]
pub struct Counted<G> {
    below: G,
    asked: u32,
}

impl<G: Grid> Counted<G> {
    pub fn new(below: G) -> Counted<G> {
        Counted { below, asked: 0 }
    }

    pub fn asked(&self) -> u32 {
        self.asked
    }
}

impl<G: Grid> Grid for Counted<G> {
    ghost picture = { λ c. G.Grid.picture c.below };

    ghost sound = { λ c. G.Grid.sound c.below };

    fn size(&self) -> Size {
        self.below.size()
    }

    fn kind(&self) -> Kind {
        self.below.kind()
    }

    fn pixel(&mut self, x: u32, y: u32) -> Result<u32, Fault> {
        self.asked = self.asked.saturating_add(1);
        self.below.pixel(x, y)
    }
}
