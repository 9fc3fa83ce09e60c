// Plans, which say how a draft is cut.
ghost use Rattle.std.specs.Prelude.{◌≡◌, true};
ghost use Rattle.plans.specs.Limits.{limited};

use crate::pieces::Pieces;
use octets::endian::Endian;

pub mod making;

// A byte order, and the pieces that a picture is cut into.
#[derive(Clone, Copy)]
pub struct Plan {
    endian: Endian,
    pieces: Pieces,
    ghost limits: { limited pieces ≡ true },
}
