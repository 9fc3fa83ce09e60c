// Where the bytes of the segments stand.
ghost use Rattle.std.specs.Prelude.{◌≡◌, ◌/◌, ◌<◌, ◌≤◌};
ghost use Rattle.pages.specs.Geometry.{first_column};
ghost use Rattle.plans.specs.Outlines.{Proper, segment_size};
ghost use Rattle.writer.specs.Spots.{spot_of};

use plans::outline::Outline;

// A byte of a row of a segment: the column of the picture at which the segment begins, the row of the picture, and
// which byte of the segment's row it is.
// The bounds stand in clauses and not as ghost fields, since the definitions name spots of any outline.
#[derive(Clone, Copy)]
pub struct Spot {
    pub column: u32,
    pub row: u32,
    pub byte: u32,
}

// Where byte j of the segments stands.
pub fn locate(outline: Outline, j: u64) -> Spot
    requires proper { Proper outline }
    requires segment { j / segment_size outline 0 < 1024 }
    ensures value { result ≡ spot_of outline j }
    ensures column { result.column ≤ 16777216 }
    ensures byte { result.byte < 49152 }
{
    let cut = outline.cut;
    let size = outline.segment_size(0) as u64;
    let k = (j / size) as u32;
    let inner = (j % size) as u32;
    let row = cut.row_bytes(outline.kind) as u32;
    Spot {
        column: first_column(outline, k),
        row: cut.first_row(outline.width, k) as u32 + inner / row,
        byte: inner % row,
    }
}

// The column of the picture at which segment k begins.
fn first_column(outline: Outline, k: u32) -> u32
    requires proper { Proper outline }
    requires one { k < 1024 }
    ensures value { result ≡ first_column outline.cut outline.width k }
    ensures few { result ≤ 16777216 }
{
    let across = outline.cut.across(outline.width) as u32;
    k % across * outline.cut.wide
}
