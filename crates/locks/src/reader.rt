// A reader that stands over the bytes of a lock.
ghost use Rattle.std.specs.Prelude.{◌+◌, ◌^◌, ◌<◌, length};

pub(crate) mod fields;
mod rules;
mod walk;

// What is left of the lock's bytes, and its offset.
#[derive(Clone, Copy)]
pub struct Reader<'a> {
    rest: &'a [u8],
    at: usize,
    ghost near: { at + length rest.now < 2 ^ 63 + 16 },
}
