// Why the program stops early.
use engine::Fault;
use std::alloc::AllocError;
use std::io;

#[derive(Debug, Drop)]
pub enum Stop {
    Refused(Fault),
    NoMemory,
    Io(io::Error),
}

impl From<Fault> for Stop {
    fn from(fault: Fault) -> Stop {
        Stop::Refused(fault)
    }
}

impl From<AllocError> for Stop {
    fn from(_error: AllocError) -> Stop {
        Stop::NoMemory
    }
}

impl From<io::Error> for Stop {
    fn from(error: io::Error) -> Stop {
        Stop::Io(error)
    }
}
