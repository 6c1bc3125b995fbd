// A lock that was read.
mod sizes;
pub mod whole;

// How many inputs, gates, outputs and products it has, and the bytes of its records.
#[derive(Clone, Copy)]
pub struct Lock<'a> {
    pub inputs: u32,
    pub gates: u32,
    pub outputs: u32,
    pub products: u32,
    pub records: &'a [u8],
}
