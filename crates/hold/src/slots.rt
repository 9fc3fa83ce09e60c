// Sectors kept in memory: sector s only in slot s % 8, with the tag s / 8.
ghost use Rattle.std.specs.Prelude.{◌≡◌, ℕ, ◌+◌, ◌-◌, ◌*◌, ◌/◌, ◌%◌, ◌^◌, ◌<◌, ◌≤◌, false, List, length, ◌≢◌, slice_index};
ghost use Rattle.octets.specs.Sectors.{patched};
ghost use Rattle.hold.specs.Kept.{kept, over};

// A kept sector: its tag and its content.
#[derive(Clone, Copy)]
pub struct Sector {
    pub tag: u32,
    pub bytes: [u8; 512],
}

impl Sector {
    // Where it begins, kept in slot `i`.
    pub fn first_byte(&self, i: usize) -> u64
        requires { i < 8 }
        ensures is { result ≡ 512 * (8 * self.now.tag + i) }
        ensures bound { result < 2 ^ 45 }
    {
        512 * (8 * u64::from(self.tag) + i as u64)
    }

    // Replaces its bytes from `offset` on.
    pub fn patch(&mut self, offset: usize, bytes: &[u8])
        requires { offset + length bytes.now ≤ 512 }
        ensures len { length self.old.bytes ≡ 512 }
        ensures tag { self.new.tag ≡ self.old.tag }
        ensures bytes { self.new.bytes ≡ patched self.old.bytes offset bytes.now }
    {
        let count = bytes.len();
        self.bytes[offset..offset + count].copy_from_slice(bytes);
    }

    // Puts it, kept in slot `i`, over the buffer, which holds the bytes from `place` on.
    fn overlay(&self, i: usize, place: u32, buffer: &mut [u8])
        requires slot { i < 8 }
        requires short { place + length buffer.old < 2 ^ 32 }
        ensures here { (k : ℕ) → k < length buffer.old → (place + k) / 512 ≡ 8 * self.now.tag + i → slice_index buffer.new k ≡ slice_index self.now.bytes ((place + k) % 512) }
        ensures others { (k : ℕ) → k < length buffer.old → ((place + k) / 512 ≢ 8 * self.now.tag + i) → slice_index buffer.new k ≡ slice_index buffer.old k }
    {
        lay(&self.bytes, self.first_byte(i), u64::from(place), buffer);
    }
}

#[derive(Clone, Copy)]
pub struct Table {
    pub slots: [Option<Sector>; 8],
}

impl Table {
    // A table that keeps nothing.
    pub fn new() -> Self
        ensures { (s : ℕ) → kept result.slots s ≡ false }
    {
        Table { slots: [None; 8] }
    }

    // Puts what is kept over the buffer, which holds the bytes from `place` on as they are below.
    pub fn overlay(&self, place: u32, buffer: &mut [u8])
        requires { place + length buffer.old < 2 ^ 32 }
        ensures { (k : ℕ) → k < length buffer.old → slice_index buffer.new k ≡ over self.now.slots (place + k) (slice_index buffer.old k) }
    {
        for (i, slot) in self.slots.iter().enumerate() {
            if let Some(sector) = slot {
                sector.overlay(i, place, buffer);
            }
        }
    }

    // Whether the sector is kept.
    pub fn keeps(&self, sector: u32) -> bool
        ensures { result ≡ kept self.now.slots sector }
    {
        let slot = &self.slots[(sector % 8) as usize];
        slot.as_ref().is_some_and(|kept| kept.tag == sector / 8)
    }
}

// Copies those of the bytes from `start` on that lie in the buffer, which stands for the bytes from `place` on.
fn lay(bytes: &[u8; 512], start: u64, place: u64, buffer: &mut [u8])
    requires bytes { start + 512 < 2 ^ 63 }
    requires buffer { place + length buffer.old < 2 ^ 63 }
    ensures inside { (k : ℕ) → k < length buffer.old → start ≤ place + k → place + k < start + 512 → slice_index buffer.new k ≡ slice_index bytes.now (place + k - start) }
    ensures outside { (k : ℕ) → k < length buffer.old → (start ≤ place + k → place + k < start + 512 → ⊥) → slice_index buffer.new k ≡ slice_index buffer.old k }
{
    let from = start.max(place);
    let to = (start + 512).min(place + buffer.len() as u64);
    if from < to {
        let part = &bytes[(from - start) as usize..(to - start) as usize];
        buffer[(from - place) as usize..(to - place) as usize].copy_from_slice(part);
    }
}
