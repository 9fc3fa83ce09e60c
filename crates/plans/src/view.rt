// Views of a picture.
ghost use Rattle.std.specs.Prelude.{◌≡◌};
ghost use Rattle.plans.specs.Views.{view_checked, view_width, view_height, ViewsShow};

use faults::fault::{Check, Fault};
use raster::grid::{Area, Size};

// A rectangle of a picture, under one of the eight turns.
#[derive(Clone, Copy)]
pub struct View {
    pub area: Area,
    // Any number, as `raster::turn::Turn` takes it: a check refuses those outside 1 to 8.
    pub turn: u8,
}

impl View {
    // Refused as View if a side is 0, an edge of a picture of this size is passed, or the turn is not 1 to 8.
    pub fn check(self, size: Size) -> Result<(), Fault>
        ensures { result ≡ view_checked size.width size.height self }
    {
        if self.area.fits(size) && (1..=8).contains(&self.turn) {
            Ok(())
        } else {
            Err(Check::View.fault())
        }
    }

    // The sides of what is seen: turns 5 to 8 swap them.
    pub fn size(self) -> Size
        ensures width { result.width ≡ view_width self }
        ensures height { result.height ≡ view_height self }
    {
        let area = self.area;
        let size = Size {
            width: area.width,
            height: area.height,
        };
        size.turned(self.turn)
    }
}

// The theorem that what is seen of a picture through a view of it has the view's sides and the picture's kind.
pub fn views_show_pictures()
    ensures { ViewsShow }
{}
