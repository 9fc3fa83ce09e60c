// The model is a plain array of the bytes that a card has to show.
use faults::fault::{Check, Fault};
use store::promises::write_then_read;
use store::traits::{Card, Store};

// What stands in a buffer before each read.
const BEFORE: u8 = 170;

// The next number of a small generator.
pub fn next(random: u32) -> u32 {
    random.wrapping_mul(1_664_525).wrapping_add(1_013_904_223)
}

// Whether every byte is this one.
pub fn all(bytes: &[u8], byte: u8) -> bool {
    bytes.iter().all(|b| *b == byte)
}

// Whether the answer is this refusal.
fn refused(answer: Result<(), Fault>, refusal: Fault) -> bool {
    answer.is_err_and(|fault| fault == refusal)
}

// Whether a read answers as the model does, in every byte of the buffer.
pub fn reads<S: Store>(store: &mut S, model: &[u8], place: u32, buffer: &mut [u8]) -> bool {
    buffer.fill(BEFORE);
    let count = buffer.len();
    let answer = store.read(place, buffer);
    if count > model.len() || place as usize > model.len() - count {
        return refused(answer, Check::Past.fault()) && all(buffer, BEFORE);
    }
    let from = place as usize;
    answer.is_ok() && &*buffer == &model[from..from + count]
}

// Whether a write is answered as the model answers it, which then holds the bytes.
pub fn writes<C: Card>(card: &mut C, model: &mut [u8], place: u32, bytes: &[u8]) -> bool {
    let count = bytes.len();
    let answer = card.write(place, bytes);
    if count > model.len() || place as usize > model.len() - count {
        return refused(answer, Check::Past.fault());
    }
    let from = place as usize;
    model[from..from + count].copy_from_slice(bytes);
    answer.is_ok()
}

// The same for a write that is read back at once, into a buffer that has to be as long.
fn echoes<C: Card>(
    card: &mut C,
    model: &mut [u8],
    place: u32,
    bytes: &[u8],
    buffer: &mut [u8],
) -> bool {
    buffer.fill(BEFORE);
    let count = bytes.len();
    let answer = write_then_read(card, place, bytes, buffer);
    if buffer.len() != count {
        return refused(answer, Check::Small.fault()) && all(buffer, BEFORE);
    }
    if count > model.len() || place as usize > model.len() - count {
        return refused(answer, Check::Past.fault()) && all(buffer, BEFORE);
    }
    let from = place as usize;
    model[from..from + count].copy_from_slice(bytes);
    answer.is_ok() && &*buffer == bytes
}

// That at a few places, with buffers as long, shorter and longer.
pub fn all_echo<C: Card>(card: &mut C, model: &mut [u8]) -> bool {
    let bytes = [11, 12, 13, 14];
    for place in [510, 1022, 1023, 1026] {
        let three = echoes(card, model, place, &bytes, &mut [0; 3]);
        let five = echoes(card, model, place, &bytes, &mut [0; 5]);
        if !three || !five || !echoes(card, model, place, &bytes, &mut [0; 4]) {
            return false;
        }
    }
    true
}

// Fills the buffer with numbers of the generator.
pub fn scatter(buffer: &mut [u8], random: u32) {
    let mut number = random;
    for byte in buffer.iter_mut() {
        number = next(number);
        *byte = (number >> 24) as u8;
    }
}

// One write and one read at places and of lengths that come from `random`, up to a little past the end, and then a
// read of everything.
fn round<C: Card>(card: &mut C, model: &mut [u8], random: u32, buffer: &mut [u8]) -> bool {
    let size = model.len().min(buffer.len());
    let span = model.len().min(2_000_000) as u32 + 9;
    let count = (random >> 8) as usize % (size + 1);
    scatter(buffer, random);
    let written = writes(card, model, (next(random) >> 7) % span, &buffer[0..count]);
    let part = (random >> 12) as usize % (size + 1);
    let read = reads(
        card,
        model,
        (next(next(random)) >> 7) % span,
        &mut buffer[0..part],
    );
    written && read && reads(card, model, 0, &mut buffer[0..size])
}

// Many such rounds, with a settling after every eighth.
fn rounds<C: Card>(card: &mut C, model: &mut [u8], random: u32, buffer: &mut [u8]) -> bool {
    let mut number = random;
    for i in 0..40 {
        if i % 8 == 7 {
            card.settle();
        }
        number = next(number);
        if !round(card, model, number, buffer) {
            return false;
        }
    }
    card.settle();
    card.length() as usize == model.len()
}

// Writes and reads of 0 to 3 bytes from `place` on.
fn short_ones<C: Card>(card: &mut C, model: &mut [u8], place: u32, buffer: &mut [u8; 3]) -> bool {
    for count in 0..4 {
        scatter(buffer, place);
        if !writes(card, model, place, &buffer[0..count])
            || !reads(card, model, place, &mut buffer[0..count])
        {
            return false;
        }
    }
    true
}

// The same at the ends of sectors and of the card, and past it.
fn edges<C: Card>(card: &mut C, model: &mut [u8]) -> bool {
    let n = card.length();
    let mut buffer = [0; 3];
    for place in [
        0,
        510,
        511,
        512,
        n / 512 * 512,
        n / 2,
        n,
        n + 1,
        n + 2,
        4_294_967_295,
    ] {
        if !short_ones(card, model, place, &mut buffer) {
            return false;
        }
        if place > 0 && !short_ones(card, model, place - 1, &mut buffer) {
            return false;
        }
    }
    true
}

// Whether the bytes are the model's from `from` on, and 0 before and after.
pub fn lies_in(bytes: &[u8], from: usize, model: &[u8]) -> bool {
    let count = model.len();
    if count > bytes.len() || from > bytes.len() - count {
        return false;
    }
    let to = from + count;
    all(&bytes[0..from], 0) && &bytes[from..to] == model && all(&bytes[to..], 0)
}

// Whether the card does as the model at the edges and in many rounds, which end settled.
pub fn holds_up<C: Card>(card: &mut C, model: &mut [u8], random: u32, buffer: &mut [u8]) -> bool {
    edges(card, model) && rounds(card, model, random, buffer)
}
