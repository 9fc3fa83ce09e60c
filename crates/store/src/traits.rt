// What may be asked of a store, and what every store promises.
ghost use Rattle.std.specs.Prelude.{◌≡◌, ℕ, List, length};
ghost use Rattle.store.specs.Rules.{Laws, Answered, filled, written, NoGain, Alone, Gained};

use faults::fault::Fault;

// Bytes that can be read, by sectors of 512.
pub trait Store {
    // The bytes that a read gets.
    ghost seen: { Self → List ℕ };

    // For each sector, the contents with which it may be found if power ends now.
    ghost may: { Self → ℕ → List (List ℕ) };

    // For each sector, a record of contents that includes those.
    ghost trail: { Self → ℕ → List (List ℕ) };

    // What holds of every store.
    ghost laws: { Laws seen may trail };

    fn length(&self) -> u32
        ensures { result ≡ length (seen self.now) };

    // Fills the buffer with the bytes from `place` on.
    fn read(&mut self, place: u32, buffer: &mut [u8]) -> Result<(), Fault>
        ensures answer { Answered result (seen self.old) place (length buffer.old) }
        ensures got { buffer.new ≡ filled result (seen self.old) place buffer.old }
        ensures same { seen self.new ≡ seen self.old }
        ensures lists { NoGain (may self.old) (may self.new) }
        ensures trails { NoGain (trail self.old) (trail self.new) };

    // Makes what is seen the only content that each sector may be found with.
    fn settle(&mut self)
        ensures same { seen self.new ≡ seen self.old }
        ensures lists { Alone (seen self.new) (may self.new) }
        ensures trails { NoGain (trail self.old) (trail self.new) };
}

// A store that can also be written.
pub trait Card: Store {
    // Replaces the bytes from `place` on.
    fn write(&mut self, place: u32, bytes: &[u8]) -> Result<(), Fault>
        ensures answer { Answered result (Self.Store.seen self.old) place (length bytes.now) }
        ensures put { Self.Store.seen self.new ≡ written result (Self.Store.seen self.old) place bytes.now }
        ensures lists { Gained result (Self.Store.seen self.new) place (length bytes.now) (Self.Store.may self.old) (Self.Store.may self.new) }
        ensures trails { Gained result (Self.Store.seen self.new) place (length bytes.now) (Self.Store.trail self.old) (Self.Store.trail self.new) };
}
