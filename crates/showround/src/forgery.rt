// A forgery: one more in the first product of branch 1, in its first output share and in the lock's last target, with the seal made to match.
use crate::messages::Messages;
use crate::stop::Stop;
use engine::{ElementKind, Lock, Sealer};
use std::alloc::{AllocError, Global};

// One more in the byte at an offset, if there is one.
fn raise(bytes: &mut [u8], at: usize) {
    if let Some(byte) = bytes.get_mut(at) {
        *byte = byte.wrapping_add(1);
    }
}

// Writes the seal of the view of `length` bytes at `from` of the answer over the one at `at` of the first message.
fn reseal<S: Sealer>(
    sealer: &S,
    answer: &[u8],
    from: usize,
    length: usize,
    first: &mut [u8],
    at: usize,
) -> Result<(), Stop> {
    let size = S::LENGTH;
    if from.saturating_add(length) <= answer.len() && at.saturating_add(size) <= first.len() {
        sealer.seal(&answer[from..from + length], &mut first[at..at + size])?;
    }
    Ok(())
}

// The messages, forged.
pub fn forge<K: ElementKind, S: Sealer>(
    sealer: &S,
    lock: Lock<'_>,
    messages: Messages,
) -> Result<Messages, Stop> {
    let Messages {
        mut first,
        answers: [mut one, two, mut three],
    } = messages;
    let row = K::WIDTH;
    let view = lock.view_length::<K>();
    // last bytes: of the first product in a view, and of the first output share
    let product = (lock.inputs as usize + lock.products as usize) * row + 31 + row;
    let seals = 2 + 3 * row * lock.outputs as usize;
    raise(one.as_mut_slice(), product.saturating_add(3));
    raise(
        three.as_mut_slice(),
        product.saturating_add(view).saturating_add(3),
    );
    raise(first.as_mut_slice(), 1 + row);
    reseal(sealer, one.as_slice(), 3, view, first.as_mut_slice(), seals)?;
    Ok(Messages {
        first,
        answers: [one, two, three],
    })
}

// The lock that the forged messages claim to open: one more in its last byte.
pub fn claimed(heap: Global, lock: &[u8]) -> Result<Vec<u8>, AllocError> {
    let mut claimed = lock.to_vec(heap)?;
    if let Some(byte) = claimed.last_mut() {
        *byte = byte.wrapping_add(1);
    }
    Ok(claimed)
}
