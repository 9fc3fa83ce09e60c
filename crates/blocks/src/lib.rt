// The block of a draft: what holds of every block, and some blocks worked out by hand.
#![tactic(auto)]

ghost use Rattle.blocks.specs.Laws.{BlocksKnown};
ghost use Rattle.blocks.specs.Known.{KnownSheets};

// The theorem that a block has its size and consists of bytes, each known by its place.
pub fn blocks_are_known()
    ensures { BlocksKnown }
{}

// The theorem that the blocks of some small sheets are those worked out by hand.
pub fn known_sheets_stand()
    ensures { KnownSheets }
{}
