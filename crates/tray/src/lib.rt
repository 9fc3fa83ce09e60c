// A part of a store.
#![tactic(auto)]

ghost use Rattle.std.specs.Prelude.{◌≡◌, ℕ, ◌+◌, length};
ghost use Rattle.tray.specs.Parts.{fits, cut, cut_lists};
ghost use Rattle.tray.specs.PartLaws.{part_laws};

use faults::fault::{Check, Fault};
use store::slices::within;
use store::traits::{Card, Store};

// `len` bytes of the store below from `from` on: none if they do not start at a sector, or go past its end.
#[derive(Drop)]
pub struct Tray<C> {
    below: C,
    from: u32,
    len: u32,
}

impl<C: Store> Tray<C> {
    pub fn new(below: C, from: u32, len: u32) -> Self
        ensures { result ≡ record { below = below; from = from; len = len } }
    {
        Tray { below, from, len }
    }

    // The store below, as it is now.
    pub fn into_below(self) -> C
        ensures { result ≡ self.below }
    {
        let Tray { below, .. } = self;
        below
    }

    fn fits(&self) -> bool
        ensures { result ≡ fits (length (C.Store.seen self.now.below)) self.now.from self.now.len }
    {
        self.from % 512 == 0 && within(self.below.length(), self.from, self.len as usize)
    }
}

// `read` and `write` make the same test, each for its own call below.
impl<C: Store> Store for Tray<C> {
    ghost seen = { λ t. cut (C.Store.seen t.below) t.from t.len };

    ghost may = { λ t. cut_lists (length (C.Store.seen t.below)) (C.Store.may t.below) t.from t.len };

    ghost trail = { λ t. cut_lists (length (C.Store.seen t.below)) (C.Store.trail t.below) t.from t.len };

    ghost laws = { part_laws (λ t. t.below) (λ t. t.from) (λ t. t.len) C.Store.laws };

    fn length(&self) -> u32 {
        if self.fits() { self.len } else { 0 }
    }

    fn read(&mut self, place: u32, buffer: &mut [u8]) -> Result<(), Fault> {
        if !within(self.length(), place, buffer.len()) {
            return Err(Check::Past.fault());
        }
        if buffer.is_empty() {
            return Ok(());
        }
        let from = self.from;
        self.below.read(from + place, buffer)
    }

    fn settle(&mut self) {
        self.below.settle();
    }
}

impl<C: Card> Card for Tray<C> {
    fn write(&mut self, place: u32, bytes: &[u8]) -> Result<(), Fault> {
        if !within(self.length(), place, bytes.len()) {
            return Err(Check::Past.fault());
        }
        if bytes.is_empty() {
            return Ok(());
        }
        let from = self.from;
        self.below.write(from + place, bytes)
    }
}
