// A card that keeps what was written last, and writes it below later.
#![tactic(auto)]

mod slots;

ghost use Rattle.std.specs.Prelude.{◌≡◌, ℕ, ◌+◌, ◌-◌, ◌*◌, ◌/◌, ◌%◌, ◌<◌, ◌≤◌, true, false, length, is_ok, ◌≢◌, slice_index};
ghost use Rattle.hold.specs.Kept.{kept, OneInEight};
ghost use Rattle.hold.specs.Changes.{seen_by, may_by, trail_by, Quiet, Put};
ghost use Rattle.hold.specs.KeptLaws.{kept_laws};
ghost use Rattle.store.specs.Rules.{Answered, written, NoGain, Gain, Gained, Alone};
ghost use Rattle.octets.specs.Sectors.{laid};

use self::slots::{Sector, Table};
use faults::fault::{Check, Fault};
use store::slices::within;
use store::traits::{Card, Store};

// Up to 8 sectors of the card below are kept, not yet written there.
#[derive(Drop)]
pub struct Hold<C> {
    below: C,
    table: Table,
}

impl<C: Card> Hold<C> {
    // A hold that keeps nothing yet.
    pub fn new(below: C) -> Self
        ensures same { result.below ≡ below }
        ensures none { (s : ℕ) → kept result.table.slots s ≡ false }
    {
        Hold {
            below,
            table: Table::new(),
        }
    }

    // Whether the sector is kept, not yet written below.
    pub fn keeps(&self, sector: u32) -> bool
        ensures is { result ≡ kept self.now.table.slots sector }
        ensures eight { OneInEight self.now.table.slots }
    {
        self.table.keeps(sector)
    }

    // Settles, and hands out the card below, with all that was seen.
    pub fn into_below(mut self) -> C
        ensures same { C.Store.seen result ≡ seen_by C.Store self }
        ensures lists { Alone (C.Store.seen result) (C.Store.may result) }
        ensures trails { NoGain (trail_by C.Store self) (C.Store.trail result) }
    {
        self.settle();
        self.below
    }

    // Writes the sector of slot `i` below, if the slot keeps one, and marks the slot free.
    fn flush(&mut self, i: usize)
        requires { i < 8 }
        ensures quiet { Quiet C.Store self.old self.new }
        ensures others { (s : ℕ) → (s % 8 ≢ i) → kept self.new.table.slots s ≡ kept self.old.table.slots s }
        ensures free { (s : ℕ) → s % 8 ≡ i → kept self.new.table.slots s ≡ false }
    {
        if let Some(sector) = self.table.slots[i] {
            self.table.slots[i] = None;
            write_sector(&mut self.below, sector.first_byte(i), &sector.bytes);
        }
    }

    // Makes the table keep the sector as it is seen.
    fn claim(&mut self, sector: u32)
        requires { 512 * sector < length (C.Store.seen self.old.below) }
        ensures quiet { Quiet C.Store self.old self.new }
        ensures kept { kept self.new.table.slots sector ≡ true }
    {
        if self.table.keeps(sector) {
            return;
        }
        let i = (sector % 8) as usize;
        self.flush(i);
        let mut bytes = [0; 512];
        read_sector(&mut self.below, 512 * sector, &mut bytes);
        self.table.slots[i] = Some(Sector {
            tag: sector / 8,
            bytes,
        });
    }

    // Writes bytes that lie in one sector, and keeps that sector.
    fn put(&mut self, place: u32, bytes: &[u8])
        requires within { place + length bytes.now ≤ length (C.Store.seen self.old.below) }
        requires some { 0 < length bytes.now }
        requires one { place % 512 + length bytes.now ≤ 512 }
        ensures put { Put C.Store self.old self.new place bytes.now }
        ensures kept { kept self.new.table.slots (place / 512) ≡ true }
    {
        let sector = place / 512;
        self.claim(sector);
        if let Some(kept) = &mut self.table.slots[(sector % 8) as usize] {
            kept.patch((place % 512) as usize, bytes);
        }
    }
}

impl<C: Card> Store for Hold<C> {
    ghost seen = { seen_by C.Store };

    ghost may = { may_by C.Store };

    ghost trail = { trail_by C.Store };

    ghost laws = { kept_laws (λ h. h.table.slots) (λ h. h.below) C.Store.laws };

    fn length(&self) -> u32 {
        self.below.length()
    }

    fn read(&mut self, place: u32, buffer: &mut [u8]) -> Result<(), Fault> {
        self.below.read(place, buffer)?;
        self.table.overlay(place, buffer);
        Ok(())
    }

    // It leaves no sector kept.
    fn settle(&mut self)
        ensures same { seen_by C.Store self.new ≡ seen_by C.Store self.old }
        ensures lists { Alone (seen_by C.Store self.new) (may_by C.Store self.new) }
        ensures trails { NoGain (trail_by C.Store self.old) (trail_by C.Store self.new) }
        ensures none { (s : ℕ) → kept self.new.table.slots s ≡ false }
    {
        // `flush` writes to the card below too, so it is given the slot's number and not the slot.
        for i in 0..8 {
            self.flush(i);
        }
        self.below.settle();
    }
}

impl<C: Card> Card for Hold<C> {
    // It leaves the sector that it touched last kept.
    fn write(&mut self, place: u32, bytes: &[u8]) -> Result<(), Fault>
        ensures answer { Answered result (seen_by C.Store self.old) place (length bytes.now) }
        ensures put { seen_by C.Store self.new ≡ written result (seen_by C.Store self.old) place bytes.now }
        ensures lists { Gained result (seen_by C.Store self.new) place (length bytes.now) (may_by C.Store self.old) (may_by C.Store self.new) }
        ensures trails { Gained result (seen_by C.Store self.new) place (length bytes.now) (trail_by C.Store self.old) (trail_by C.Store self.new) }
        ensures last { is_ok result ≡ true → 0 < length bytes.now → kept self.new.table.slots ((place + length bytes.now - 1) / 512) ≡ true }
    {
        if !within(self.length(), place, bytes.len()) {
            return Err(Check::Past.fault());
        }
        let mut done = 0;
        // The parts end where sectors of the card end, so `chunks` of the bytes are not the parts.
        while done < bytes.len() {
            let at = place + done as u32;
            let room = 512 - (at % 512) as usize;
            let count = room.min(bytes.len() - done);
            self.put(at, &bytes[done..done + count]);
            done += count;
        }
        Ok(())
    }
}

// Writes a sector, as far as it lies within the card.
fn write_sector<C: Card>(card: &mut C, place: u64, bytes: &[u8; 512])
    ensures len { length bytes.now ≡ 512 }
    ensures put { C.Store.seen card.new ≡ laid (C.Store.seen card.old) place bytes.now }
    ensures lists { Gain (C.Store.seen card.new) place 512 (C.Store.may card.old) (C.Store.may card.new) }
    ensures trails { Gain (C.Store.seen card.new) place 512 (C.Store.trail card.old) (C.Store.trail card.new) }
{
    let n = u64::from(card.length());
    if place < n {
        let count = (n - place).min(512) as usize;
        let _ = card.write(place as u32, &bytes[0..count]);
    }
}

// Reads a sector, as far as it lies within the store.
fn read_sector<S: Store>(store: &mut S, place: u32, bytes: &mut [u8; 512])
    requires { place < length (S.Store.seen store.old) }
    ensures len { length bytes.new ≡ 512 }
    ensures got { (k : ℕ) → k < 512 → place + k < length (S.Store.seen store.old) → slice_index bytes.new k ≡ slice_index (S.Store.seen store.old) (place + k) }
    ensures same { S.Store.seen store.new ≡ S.Store.seen store.old }
    ensures lists { NoGain (S.Store.may store.old) (S.Store.may store.new) }
    ensures trails { NoGain (S.Store.trail store.old) (S.Store.trail store.new) }
{
    let count = (store.length() - place).min(512) as usize;
    let _ = store.read(place, &mut bytes[0..count]);
}
