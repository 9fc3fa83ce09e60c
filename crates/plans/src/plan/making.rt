// The making of plans.
ghost use Rattle.std.specs.Prelude.{◌≡◌};
ghost use Rattle.plans.specs.declared.pieces.Pieces.TheVariants.{Strips, Tiles};
ghost use Rattle.plans.specs.Plans.{Made, Drafts, plan_outline};

use crate::draft::DraftOutline;
use crate::outline::Outline;
use crate::pieces::Pieces;
use crate::plan::Plan;
use faults::fault::{Check, Fault};
use octets::endian::Endian;
use pages::geometry::is_page_side;
use raster::grid::{Kind, Size};

impl Plan {
    // A plan of these pieces; refused as Plan unless they are allowed.
    pub fn new(endian: Endian, pieces: Pieces) -> Result<Plan, Fault>
        ensures { Made result endian pieces }
    {
        if pieces.is_allowed() {
            Ok(Plan { endian, pieces })
        } else {
            Err(Check::Plan.fault())
        }
    }

    // A plan of strips of so many rows; refused as Plan if they are none.
    pub fn strips(endian: Endian, rows: u32) -> Result<Plan, Fault>
        ensures { Made result endian (Strips rows) }
    {
        Plan::new(endian, Pieces::Strips { rows })
    }

    // A plan of tiles; refused as Plan unless both sides are multiples of 16 from 16 to 16,384.
    pub fn tiles(endian: Endian, width: u32, length: u32) -> Result<Plan, Fault>
        ensures { Made result endian (Tiles width length) }
    {
        Plan::new(endian, Pieces::Tiles { width, length })
    }

    // The outline of the draft of a picture of a size and a kind.
    pub fn outline(self, size: Size, kind: Kind) -> Outline
        ensures { result ≡ plan_outline self size.width size.height kind }
    {
        Outline {
            endian: self.endian,
            width: size.width,
            height: size.height,
            kind,
            cut: self.pieces.cut(size),
        }
    }

    // That outline, if a picture can have this size and kind and is cut into at most 1,024 segments.
    pub fn draft(self, size: Size, kind: Kind) -> Option<DraftOutline>
        ensures { Drafts result (plan_outline self size.width size.height kind) }
    {
        let outline = self.outline(size, kind);
        if is_page_side(size.width)
            && is_page_side(size.height)
            && kind.is_allowed()
            && outline.segments() <= 1024
        {
            Some(DraftOutline { outline })
        } else {
            None
        }
    }
}
