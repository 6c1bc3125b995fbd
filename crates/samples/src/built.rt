// Locks of many records.
ghost use Rattle.std.specs.Prelude.{◌≡◌, ◌+◌, ◌*◌, IfOk, length, slice_index, vec_len};

use std::alloc::{AllocError, Global};

// A lock's header, so many copies of one gate record, and so many of one output record.
pub fn built(
    heap: Global,
    kind: u8,
    counts: [u32; 3],
    gate: &[u8],
    output: &[u8],
) -> Result<Vec<u8>, AllocError>
    ensures { IfOk result (λ lock. vec_len lock ≡ 15 + slice_index counts 1 * length gate.now + slice_index counts 2 * length output.now) }
{
    let [inputs, gates, outputs] = counts;
    let mut bytes = Vec::new(heap);
    bytes.extend_from_slice(&[b'L', b'K', kind])?;
    bytes.extend_from_slice(&inputs.to_be_bytes())?;
    bytes.extend_from_slice(&gates.to_be_bytes())?;
    bytes.extend_from_slice(&outputs.to_be_bytes())?;
    bytes.extend_from_slice(gate.repeat(heap, gates as usize)?.as_slice())?;
    bytes.extend_from_slice(output.repeat(heap, outputs as usize)?.as_slice())?;
    Ok(bytes)
}

// One bit, squared so many times; the bit itself has to be the target.
pub fn squares(heap: Global, products: u32, target: u8) -> Result<Vec<u8>, AllocError>
    ensures { IfOk result (λ lock. vec_len lock ≡ 22 + 10 * products) }
{
    built(
        heap,
        1,
        [1, products, 1],
        b"MU\0\0\0\0\0\0\0\0",
        &[b'O', b'U', 0, 0, 0, 0, target],
    )
}
