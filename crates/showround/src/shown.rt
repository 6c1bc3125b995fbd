// One sealer's part of the text.
use crate::example::Example;
use crate::forgery::{claimed, forge};
use crate::messages::{Messages, PICKS};
use crate::player::{Player, Sizes};
use crate::stop::Stop;
use engine::{Branch, ElementKind, Extracted, Fault, Keeper, Sealer, read_lock};
use plays::Opening;
use std::fmt;

// The verifier's word.
#[derive(Clone, Copy)]
struct Verdict(Result<(), Fault>);

impl fmt::Display for Verdict {
    fn fmt<W: fmt::Write>(&self, f: &mut fmt::Formatter<W>) -> fmt::Result {
        match self.0 {
            Ok(()) => write!(f, "accepted"),
            Err(fault) => write!(f, "{fault}"),
        }
    }
}

// Two hexadecimal digits for each byte, written with no memory of their own.
#[derive(Clone, Copy)]
struct Hex<'a>(&'a [u8]);

impl fmt::Display for Hex<'_> {
    fn fmt<W: fmt::Write>(&self, f: &mut fmt::Formatter<W>) -> fmt::Result {
        for byte in self.0 {
            write!(f, "{byte:02x}")?;
        }
        Ok(())
    }
}

// The round that the example's pick asks for: a keeper of one round promises, then answers. Gives both messages.
fn keep<K: ElementKind, S: Sealer>(
    rt: &HostRuntime,
    player: &Player<'_, S>,
    pick: u8,
) -> Result<(Vec<u8>, Vec<u8>), Stop> {
    let mut store = player.store()?;
    let mut first = player.zeros(player.sizes.first)?;
    let mut answer = player.zeros(player.sizes.answer)?;
    let mut keeper = Keeper::new(player.sizes.view, store.as_mut_slice());
    let round = player.promise::<K>(&mut keeper, first.as_mut_slice())?;
    println!(rt; "promise round {round}")?;
    keeper.answer(round, pick, answer.as_mut_slice())?;
    Ok((first, answer))
}

// That round, step by step.
fn show_round<K: ElementKind, S: Sealer>(
    rt: &HostRuntime,
    player: &Player<'_, S>,
    pick: u8,
) -> Result<(), Stop> {
    let (first, answer) = keep::<K, S>(rt, player, pick)?;
    let (first, answer) = (first.as_slice(), answer.as_slice());
    println!(rt; "first message {}", Hex(first))?;
    println!(rt; "answer to pick {pick} {}", Hex(answer))?;
    let verdict = Verdict(player.verify::<K>(first, pick, answer)?);
    println!(rt; "verify {verdict}")?;
    Ok(())
}

// The verifier's word at each pick.
fn show_picks<K: ElementKind, S: Sealer>(
    rt: &HostRuntime,
    player: &Player<'_, S>,
    messages: &Messages,
) -> Result<(), Stop> {
    for (pick, answer) in PICKS.into_iter().zip(&messages.answers) {
        let pick = pick.number();
        let verdict = player.verify::<K>(messages.first.as_slice(), pick, answer.as_slice())?;
        println!(rt; "pick {pick} {}", Verdict(verdict))?;
    }
    Ok(())
}

fn show_extracted<K: ElementKind, S: Sealer>(
    rt: &HostRuntime,
    player: &Player<'_, S>,
    messages: &Messages,
) -> Result<(), Stop> {
    let (found, key) = player.extract::<K>(messages.first.as_slice(), &messages.answers)?;
    match found {
        Ok(Extracted::Key) => println!(rt; "extract key {}", Hex(key.as_slice()))?,
        Ok(Extracted::Collision { branch, offset }) => {
            let branch = branch.number();
            println!(rt; "extract two views of branch {branch} with one seal, unlike at {offset}")?
        }
        Err(refused) => {
            println!(rt;
                "extract pick {} {}",
                Branch::told(refused.pick),
                refused.fault
            )?
        }
    }
    Ok(())
}

pub fn show<'a, K: ElementKind, S: Sealer>(
    rt: &HostRuntime,
    sealer: &'a S,
    example: &'a Example,
) -> Result<(), Stop> {
    let opening = example.opening();
    let lock = read_lock::<K>(opening.lock)?;
    let player = Player {
        heap: rt.alloc(),
        sealer,
        opening,
        sizes: Sizes::of::<K, S>(lock),
    };
    show_round::<K, S>(rt, &player, example.pick)?;
    let messages = Messages::of::<K, S>(&player)?;
    show_picks::<K, S>(rt, &player, &messages)?;
    show_extracted::<K, S>(rt, &player, &messages)?;
    let forged = forge::<K, S>(sealer, lock, messages)?;
    let claimed = claimed(rt.alloc(), opening.lock)?;
    let opening = Opening {
        lock: claimed.as_slice(),
        ..opening
    };
    println!(rt; "forged product, target one more")?;
    show_picks::<K, S>(rt, &Player { opening, ..player }, &forged)
}
