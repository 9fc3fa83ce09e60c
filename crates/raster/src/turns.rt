// What one turn after another amounts to.
ghost use Rattle.std.specs.Prelude.{◌≡◌};
ghost use Rattle.raster.specs.Views.{counted};
ghost use Rattle.raster.specs.Turns.{composed, Composes, Rule};

// Row a, column b, both counted from 1: the one turn that a turn by a and then by b amounts to.
const TURNS: [[u8; 8]; 8] = [
    [1, 2, 3, 4, 5, 6, 7, 8],
    [2, 1, 4, 3, 8, 7, 6, 5],
    [3, 4, 1, 2, 7, 8, 5, 6],
    [4, 3, 2, 1, 6, 5, 8, 7],
    [5, 6, 7, 8, 1, 2, 3, 4],
    [6, 5, 8, 7, 4, 3, 2, 1],
    [7, 8, 5, 6, 3, 4, 1, 2],
    [8, 7, 6, 5, 2, 1, 4, 3],
];

// The one turn that a turn by `first` and then by `second` amounts to on every picture.
pub fn then(first: u8, second: u8) -> u8
    ensures turn { result ≡ composed first second }
    ensures composes { Composes first second result }
    ensures rule { Rule }
{
    let row = counted(first) - 1;
    let column = counted(second) - 1;
    TURNS[row as usize][column as usize]
}

// A number outside 1 to 8 counts as turn 1.
pub fn counted(turn: u8) -> u8
    ensures { result ≡ counted turn }
{
    match turn {
        1..=8 => turn,
        _ => 1,
    }
}
