// What a holder keeps in mind.
use plans::plan::Plan;
use plans::view::View;
use stored::page::Page;

// How far a draft has come that is out.
#[derive(Clone, Copy, PartialEq, Eq)]
pub enum Stage {
    // Begun: so many of its sectors are carried, and not all.
    Begun(u32),
    // Carried: all of them are.
    Carried,
    // Rested: and the card was settled since.
    Rested,
    // Switched: the header leads to it.
    Switched,
}

// A draft that is out: what is drawn, how it is cut, where it goes and how far it has come.
#[derive(Clone, Copy)]
pub struct Draft {
    pub view: View,
    pub plan: Plan,
    pub place: u32,
    pub stage: Stage,
}

// The page that is shown, the turn that its orientation and all turns kept since amount to, and the draft that is out.
#[derive(Clone, Copy)]
pub struct State {
    pub page: Option<Page>,
    // A turn from 1 to 8, a number as in `raster::turns::then`.
    pub arrow: u8,
    pub draft: Option<Draft>,
}
