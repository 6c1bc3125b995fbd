// The messages of rounds with one tape.
use crate::player::Player;
use crate::stop::Stop;
use engine::{Branch, ElementKind, Sealer};

pub const PICKS: [Branch; 3] = [Branch::One, Branch::Two, Branch::Three];

// A first message, and the answers to picks 1, 2 and 3.
#[derive(Drop)]
pub struct Messages {
    pub first: Vec<u8>,
    pub answers: [Vec<u8>; 3],
}

impl Messages {
    // Three rounds with one tape. No host may do so: together they give the key away.
    pub fn of<K: ElementKind, S: Sealer>(player: &Player<'_, S>) -> Result<Messages, Stop> {
        let mut first = player.zeros(player.sizes.first)?;
        let answers = PICKS.try_map(|pick| player.play::<K>(pick, first.as_mut_slice()))?;
        Ok(Messages { first, answers })
    }
}
