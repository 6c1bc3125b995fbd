// Plays a round from lock to extracted key and prints each step: with each sealer, at every pick, and once with a forged product.
#![tactic(auto)]

use engine::{Bit, ElementKind, KindName, Residue, Sha3_256, Sha256, Word, promises_stand};
use example::Example;
use report::report;
use shown::show;
use std::env;
use stop::Stop;

mod example;
mod forgery;
mod messages;
mod player;
mod shown;
mod stop;

fn show_as<K: ElementKind>(rt: &HostRuntime, example: &Example) -> Result<(), Stop> {
    println!(rt; "SHA-256")?;
    show::<K, Sha256>(rt, &Sha256, example)?;
    println!(rt; "SHA3-256")?;
    show::<K, Sha3_256>(rt, &Sha3_256, example)
}

fn play(rt: &HostRuntime) -> Result<(), Stop> {
    let Some(name) = env::args(rt)?.nth(1) else {
        println!(rt; "usage: showround NAME, for NAME.lock, NAME.key, NAME.tape and NAME.pick")?;
        return Ok(());
    };
    let example = Example::read(rt, name.as_str())?;
    let told = report(rt.alloc(), example.lock.as_slice())?;
    print!(rt; "{told}")?;
    match example.kind() {
        Some(KindName::Bit) => show_as::<Bit>(rt, &example),
        Some(KindName::Residue) => show_as::<Residue>(rt, &example),
        // a lock of no kind is refused as one of words
        Some(KindName::Word) | None => show_as::<Word>(rt, &example),
    }
}

fn main(rt: HostRuntime) -> Result<(), Stop> {
    promises_stand();
    let played = play(&rt);
    if let Err(Stop::Refused(fault)) = &played {
        println!(rt; "{fault}")?;
        return Ok(());
    }
    played
}
