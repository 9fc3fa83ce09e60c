// What may be relied on over any store or card, whatever it is made of.
ghost use Rattle.std.specs.Prelude.{◌≡◌, length, ◌≢◌};
ghost use Rattle.faults.specs.declared.fault.Check.TheVariants.{Small};
ghost use Rattle.store.specs.Rules.{Answered, NoGain};
ghost use Rattle.store.specs.Promises.{Echoed, LeftAsWas, FoundOfWrite, OneFound};

use super::traits::{Card, Store};
use faults::fault::{Check, Fault};

// Writes the bytes, and reads as many back into a buffer that has to be as long as they are.
pub fn write_then_read<C: Card>(
    card: &mut C,
    place: u32,
    bytes: &[u8],
    buffer: &mut [u8],
) -> Result<(), Fault>
    ensures answer { length buffer.old ≡ length bytes.now → Answered result (C.Store.seen card.old) place (length bytes.now) }
    ensures echoed { length buffer.old ≡ length bytes.now → Echoed result (C.Store.seen card.old) (C.Store.seen card.new) place bytes.now buffer.old buffer.new }
    ensures unequal { (length buffer.old ≢ length bytes.now) → LeftAsWas result Small (C.Store.seen card.old) (C.Store.seen card.new) buffer.old buffer.new }
    ensures found { FoundOfWrite (C.Store.seen card.old) (C.Store.seen card.new) (C.Store.may card.old) (C.Store.may card.new) place bytes.now }
{
    if buffer.len() != bytes.len() {
        return Err(Check::Small.fault());
    }
    card.write(place, bytes)?;
    card.read(place, buffer)
}

// Settles the store: from then on there is exactly one thing to be found, and it is what was seen.
pub fn settle_to_one<S: Store>(store: &mut S)
    ensures same { S.Store.seen store.new ≡ S.Store.seen store.old }
    ensures one { OneFound (S.Store.seen store.new) (S.Store.may store.new) }
    ensures trails { NoGain (S.Store.trail store.old) (S.Store.trail store.new) }
{
    store.settle();
}
