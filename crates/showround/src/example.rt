// What the program plays with, from files.
use crate::stop::Stop;
use engine::KindName;
use plays::Opening;
use std::fs;

// A lock with a key, a tape, and the pick of the round that is shown in full.
#[derive(Drop)]
pub struct Example {
    pub lock: Vec<u8>,
    pub key: Vec<u8>,
    pub tape: Vec<u8>,
    pub pick: u8,
}

// The digit that a text begins with.
fn first_digit(text: &[u8]) -> u8 {
    match text {
        [digit @ b'0'..=b'9', ..] => *digit - b'0',
        _ => 0,
    }
}

fn part(rt: &HostRuntime, name: &str, ending: &str) -> Result<Vec<u8>, Stop> {
    let path = format!(in rt.alloc(); "{name}.{ending}")?;
    Ok(fs::read(rt, path.as_str())?)
}

impl Example {
    pub fn read(rt: &HostRuntime, name: &str) -> Result<Example, Stop> {
        let lock = part(rt, name, "lock")?;
        let key = part(rt, name, "key")?;
        let tape = part(rt, name, "tape")?;
        let pick = part(rt, name, "pick")?;
        Ok(Example {
            lock,
            key,
            tape,
            pick: first_digit(pick.as_slice()),
        })
    }

    // The kind of element that the lock names.
    pub fn kind(&self) -> Option<KindName> {
        match self.lock.as_slice() {
            [_, _, number, ..] => KindName::try_from(*number).ok(),
            _ => None,
        }
    }

    pub fn opening(&self) -> Opening<'_> {
        Opening {
            lock: self.lock.as_slice(),
            key: self.key.as_slice(),
            tape: self.tape.as_slice(),
        }
    }
}
