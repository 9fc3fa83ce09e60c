// The drafts that are handed about. One is live until `keep` or `scrap` takes it, and only a spent one may be let go.
ghost use Rattle.std.specs.Prelude.{◌≡◌, true, false};

use std::marker::PhantomData;

// The stages at which a draft is handed about.
pub struct AtBegun;

pub struct AtRested;

pub struct AtSwitched;

// A draft at a stage.
pub struct Ticket<S> {
    live: bool,
    stage: PhantomData<S>,
}

// A draft that is begun or carried.
pub type Begun = Ticket<AtBegun>;

// A draft whose card was settled since it was carried.
pub type Rested = Ticket<AtRested>;

// A draft that the header leads to.
pub type Switched = Ticket<AtSwitched>;

impl<S> Drop for Ticket<S> {
    fn drop(self)
        requires { self.live ≡ false }
    {
        let Ticket { live: _, stage: _ } = self;
    }
}

impl<S> Ticket<S> {
    // A live draft.
    pub(crate) fn new() -> Self
        ensures { result.live ≡ true }
    {
        Ticket {
            live: true,
            stage: PhantomData,
        }
    }

    // Spends the draft.
    pub(crate) fn spend(self) {
        let mut draft = self;
        draft.live = false;
    }

    // The draft at another stage.
    fn moved<T>(self) -> Ticket<T>
        ensures { result.live ≡ self.live }
    {
        let Ticket { live, stage: _ } = self;
        Ticket {
            live,
            stage: PhantomData,
        }
    }
}

impl Ticket<AtBegun> {
    // The draft once it has rested.
    pub(crate) fn rested(self) -> Rested
        ensures { result.live ≡ self.live }
    {
        self.moved()
    }
}

impl Ticket<AtRested> {
    // The draft once the header leads to it.
    pub(crate) fn switched(self) -> Switched
        ensures { result.live ≡ self.live }
    {
        self.moved()
    }
}

// Any of them, to be given up.
pub enum Token {
    Begun(Begun),
    Rested(Rested),
    Switched(Switched),
}

impl Token {
    // Spends the draft.
    pub(crate) fn spend(self) {
        match self {
            Token::Begun(draft) => draft.spend(),
            Token::Rested(draft) => draft.spend(),
            Token::Switched(draft) => draft.spend(),
        }
    }
}

impl From<Begun> for Token {
    ghost use Rattle.holder.specs.declared.token.Token.TheVariants.{Begun};

    ghost from_gives = { λ draft token. token ≡ Begun draft };

    fn from(draft: Ticket<AtBegun>) -> Token {
        Token::Begun(draft)
    }
}

impl From<Rested> for Token {
    ghost use Rattle.holder.specs.declared.token.Token.TheVariants.{Rested};

    ghost from_gives = { λ draft token. token ≡ Rested draft };

    fn from(draft: Ticket<AtRested>) -> Token {
        Token::Rested(draft)
    }
}

impl From<Switched> for Token {
    ghost use Rattle.holder.specs.declared.token.Token.TheVariants.{Switched};

    ghost from_gives = { λ draft token. token ≡ Switched draft };

    fn from(draft: Ticket<AtSwitched>) -> Token {
        Token::Switched(draft)
    }
}
