// The calls of a holder, and what they answer.
use plans::plan::Plan;
use plans::view::View;
use raster::grid::{Area, Kind, Size};

#[derive(Clone, Copy)]
pub enum Call {
    Open(u32),
    Pixel(u32, u32),
    // A window into a buffer of so many bytes.
    Window(Area, usize),
    Arrow,
    Begin(View, Plan),
    Carry,
    Rest,
    Switch,
    Keep,
    Scrap,
}

// What an accepted call answers.
#[derive(Clone, Copy)]
pub enum Reply {
    Done,
    // A pixel number, a length, a turn, or the sectors left.
    Number(u64),
    // The size and the kind of the picture that is shown.
    Shown(Size, Kind),
}
