// A grid under one of the eight turns, as a grid.
ghost use Rattle.std.specs.Prelude.{◌≡◌, cond};
ghost use Rattle.raster.specs.Picture.{Picture};
ghost use Rattle.raster.specs.Turns.{Eight};
ghost use Rattle.raster.specs.Views.{turn_by, swaps, mirrors, flips, column_below, row_below};
ghost use Rattle.raster.specs.Kept.{through};
ghost use Rattle.raster.specs.Layers.{turned};
ghost use Rattle.raster.specs.Soundness.{turned_sound};

use crate::grid::*;
use faults::fault::{Check, Fault};

// The grid below under one of the eight turns; a number outside 1 to 8 counts as 1.
// A turn is a u8 throughout, since an enum would ask more of callers.
#[derive(Drop)]
pub struct Turn<G> {
    below: G,
    turn: u8,
}

impl<G: Grid> Turn<G> {
    pub fn new(below: G, turn: u8) -> Turn<G>
        ensures picture { turned G.Grid.picture result ≡ turn_by turn (G.Grid.picture below) }
        ensures held { result.below ≡ below }
        ensures eight { (p : Picture) → Eight p p.width p.height }
    {
        Turn { below, turn }
    }

    pub fn into_below(self) -> G
        ensures { result ≡ self.below }
    {
        let Turn { below, turn: _ } = self;
        below
    }
}

impl<G: Grid> Grid for Turn<G> {
    ghost picture = { turned G.Grid.picture };

    ghost sound = { turned_sound G.Grid.picture G.Grid.sound };

    ghost keeps = { through (λ l. l.below) G.Grid.picture G.Grid.keeps };

    fn size(&self) -> Size {
        self.below.size().turned(self.turn)
    }

    fn kind(&self) -> Kind {
        self.below.kind()
    }

    fn pixel(&mut self, x: u32, y: u32) -> Result<u32, Fault> {
        let size = self.size();
        if x >= size.width || y >= size.height {
            return Err(Check::Outside.fault());
        }
        let below = self.below.size();
        let column = column_below(self.turn, below.width, x, y);
        let row = row_below(self.turn, below.height, x, y);
        self.below.pixel(column, row)
    }
}

impl Size {
    // The sides under a turn.
    pub fn turned(self, turn: u8) -> Size
        ensures width { result.width ≡ cond (swaps turn) self.height self.width }
        ensures height { result.height ≡ cond (swaps turn) self.width self.height }
    {
        if swaps(turn) {
            Size {
                width: self.height,
                height: self.width,
            }
        } else {
            self
        }
    }
}

// Whether a turn swaps the sides.
pub fn swaps(turn: u8) -> bool
    ensures { result ≡ swaps turn }
{
    matches!(turn, 5..=8)
}

// Whether a turn reverses the columns below.
fn mirrors(turn: u8) -> bool
    ensures { result ≡ mirrors turn }
{
    matches!(turn, 2 | 3 | 7 | 8)
}

// Whether a turn reverses the rows below.
fn flips(turn: u8) -> bool
    ensures { result ≡ flips turn }
{
    matches!(turn, 3 | 4 | 6 | 7)
}

// The column below that a turn shows at column x, row y, over a picture so wide.
pub fn column_below(turn: u8, width: u32, x: u32, y: u32) -> u32
    ensures { result ≡ column_below turn width x y }
{
    let column = if swaps(turn) { y } else { x };
    if mirrors(turn) {
        width.saturating_sub(1).saturating_sub(column)
    } else {
        column
    }
}

// The row below that a turn shows at column x, row y, over a picture so high.
pub fn row_below(turn: u8, height: u32, x: u32, y: u32) -> u32
    ensures { result ≡ row_below turn height x y }
{
    let row = if swaps(turn) { x } else { y };
    if flips(turn) {
        height.saturating_sub(1).saturating_sub(row)
    } else {
        row
    }
}
