// Stores over bytes that the caller lends.
ghost use Rattle.std.specs.Prelude.{◌≡◌, ℕ, ◌+◌, ◌-◌, ◌^◌, ◌<◌, ◌≤◌, min, List, [], ◌∷◌, length, nat_le};
ghost use Rattle.octets.specs.Sectors.{sector};
ghost use Rattle.store.specs.Rules.{Answered, filled, written};
ghost use Rattle.store.specs.Lent.{counted, alone, lent_laws};

use super::traits::{Card, Store};
use faults::fault::{Check, Fault};
use std::convert::AsSlice;

const LONGEST: u32 = 0x7fff_ffff;

// How many of `len` bytes count.
fn counted_len(len: usize) -> u32
    ensures { result ≡ min len (2 ^ 31 - 1) }
{
    len.min(LONGEST as usize) as u32
}

// Whether `count` bytes from `place` on lie within `len`.
pub fn within(len: u32, place: u32, count: usize) -> bool
    ensures { result ≡ nat_le (place + count) len }
{
    place <= len && count <= (len - place) as usize
}

// Fills the buffer with the bytes from `place` on, of those that count.
fn read_bytes(bytes: &[u8], place: u32, buffer: &mut [u8]) -> Result<(), Fault>
    ensures answer { Answered result (counted bytes.now) place (length buffer.old) }
    ensures got { buffer.new ≡ filled result (counted bytes.now) place buffer.old }
{
    let count = buffer.len();
    if !within(counted_len(bytes.len()), place, count) {
        return Err(Check::Past.fault());
    }
    let from = place as usize;
    buffer.copy_from_slice(&bytes[from..from + count]);
    Ok(())
}

// Replaces the bytes of `target` from `place` on, within those that count.
fn write_bytes(target: &mut [u8], place: u32, bytes: &[u8]) -> Result<(), Fault>
    ensures answer { Answered result (counted target.old) place (length bytes.now) }
    ensures put { target.new ≡ written result target.old place bytes.now }
{
    let count = bytes.len();
    if !within(counted_len(target.len()), place, count) {
        return Err(Check::Past.fault());
    }
    let from = place as usize;
    target[from..from + count].copy_from_slice(bytes);
    Ok(())
}

// A store over bytes that `B` lends.
#[derive(Clone, Copy, Drop)]
pub struct Lent<B>(B);

// A store over bytes lent for reading.
pub type Chip<'a> = Lent<&'a [u8]>;

// A card over bytes lent for writing.
pub type Memory<'a> = Lent<&'a mut [u8]>;

impl<'a> Chip<'a> {
    pub fn new(bytes: &'a [u8]) -> Self
        ensures { result.0.now ≡ bytes.now }
    {
        Lent(bytes)
    }
}

impl<'a> Memory<'a> {
    pub fn new(target: &'a mut [u8]) -> Self
        ensures { result.0.now ≡ target.old }
    {
        Lent(target)
    }
}

impl<B: AsSlice<u8>> Store for Lent<B> {
    ghost seen = { λ c. counted (B.items c.0) };

    ghost may = { λ c. alone (counted (B.items c.0)) };

    ghost trail = { λ c. alone (counted (B.items c.0)) };

    ghost laws = { lent_laws (λ c. B.items c.0) };

    fn length(&self) -> u32 {
        counted_len(self.0.as_slice().len())
    }

    fn read(&mut self, place: u32, buffer: &mut [u8]) -> Result<(), Fault> {
        read_bytes(self.0.as_slice(), place, buffer)
    }

    fn settle(&mut self) {}
}

impl Card for Memory<'_> {
    fn write(&mut self, place: u32, bytes: &[u8]) -> Result<(), Fault> {
        write_bytes(self.0, place, bytes)
    }
}
