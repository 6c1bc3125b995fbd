// The records of a lock, as they lie in its bytes.

// A gate record: wire numbers, and the constant as a part of the lock's bytes.
#[derive(Clone, Copy)]
pub enum GateRecord<'a> {
    AddConstant { wire: usize, constant: &'a [u8] },
    MultiplyConstant { wire: usize, constant: &'a [u8] },
    Add { left: usize, right: usize },
    Multiply { left: usize, right: usize },
}

// An output record: the wire, and the target as a part of the lock's bytes.
#[derive(Clone, Copy)]
pub struct OutputRecord<'a> {
    pub wire: usize,
    pub target: &'a [u8],
}

// What the header says: how many inputs, gates and outputs there are.
#[derive(Clone, Copy)]
pub struct Counts {
    pub inputs: usize,
    pub gates: usize,
    pub outputs: usize,
}
