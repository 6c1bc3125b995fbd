// What crosses to C, and why a call was not done.
use theory::PickFault;

// All zero where nothing was refused. The pick is told by the extractor alone.
#[derive(Clone, Copy)]
#[repr(C)]
pub struct ToldFault {
    pub place: u64,
    pub number: u8,
    pub branch: u8,
    pub pick: u8,
}

// A lock's counts, and the lengths that go with it; `work` is the least of a work slice.
#[derive(Clone, Copy)]
#[repr(C)]
pub struct ToldLengths {
    pub inputs: u32,
    pub gates: u32,
    pub outputs: u32,
    pub products: u32,
    pub key: u64,
    pub view: u64,
    pub tape: u64,
    pub first: u64,
    pub answer: u64,
    pub work: u64,
}

// Branch 0: a key was written. Else the branch whose two copies differ, and where first.
#[derive(Clone, Copy)]
#[repr(C)]
pub struct ToldExtracted {
    pub offset: u64,
    pub branch: u8,
}

// A keeper between calls; its store stands beside it. Of the records, 0 promised, 1 answered, 2 dropped, the first `promised` count.
#[derive(Clone, Copy)]
#[repr(C)]
pub struct KeeperState {
    pub view_length: u64,
    pub promised: u64,
    pub records: [u8; 64],
}

// Not a refusal of the engine's: the caller named no kind or sealer, or passed no keeper.
#[derive(Clone, Copy)]
pub enum Refusal {
    Refused(PickFault),
    NoKind,
    NoSealer,
    BadKeeper,
}
