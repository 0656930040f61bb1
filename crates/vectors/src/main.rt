// Replays the stored answers of the original through the proved library, and says how many agree.
#![tactic(auto)]

ghost use Rattle.std.specs.Prelude.{◌≡◌, length};

mod calls;
mod digests;
mod lines;
mod memory;
mod numbers;
mod replays;
mod tally;

use lines::Line;
use replays::Replay;
use std::alloc::Global;
use std::io::{ErrorKind, Read};
use std::rt::Files;
use std::{fs, io};
use tally::Tally;

// The files of answers, each NAME.txt. Those of the last are wrong, and a replay must say so of each.
const NAMES: [&str; 14] = [
    "mix",
    "layers",
    "hashes",
    "rising_starts",
    "orders",
    "reservoirs",
    "refusals",
    "handmade",
    "choosers",
    "slots",
    "handmade_choosers",
    "handmade_slots",
    "rounds",
    "wrong",
];

// Room for a piece of a file. Made in a function of its own, so that a proof has the length only and not the list.
fn piece() -> [u8; 65536]
    ensures { 65536 ≡ length result }
{
    [0; 65536]
}

// What is found of a file, from its lines as they come. What stands behind the last line feed is no line.
#[derive(Drop)]
struct Reading {
    line: Line,
    replay: Replay,
    tally: Tally,
}

impl Reading {
    fn take(&mut self, piece: &[u8]) {
        let mut rest = piece;
        while let Some(size) = rest.iter().position(|&byte| byte == b'\n') {
            self.line.push(&rest[..size]);
            self.tally.take(self.line.end(&mut self.replay));
            rest = &rest[size + 1..];
        }
        self.line.push(rest);
    }
}

fn replayed<F: Read>(alloc: Global, file: &mut F) -> io::Result<Tally> {
    let mut piece = piece();
    let mut reading = Reading {
        line: Line::new(alloc),
        replay: Replay::new(alloc),
        tally: Tally::new(),
    };
    for _ in 0..u64::MAX {
        match file.read(&mut piece) {
            Ok(0) => break,
            Ok(size) => reading.take(&piece[..size]),
            Err(e) => {
                if e.kind() != ErrorKind::Interrupted {
                    return Err(e);
                }
            }
        }
    }
    reading.tally.take(reading.replay.end());
    Ok(reading.tally)
}

fn found(rt: &(impl Files + AllocGlobal), name: &str) -> io::Result<Tally> {
    let path = format!(in rt.alloc(); "{name}.txt")?;
    let mut file = fs::open(rt, &path)?;
    replayed(rt.alloc(), &mut file)
}

fn report(rt: &(impl Files + Print + AllocGlobal), name: &str) -> io::Result<()> {
    print!(rt; "{name}: ")?;
    match found(rt, name) {
        Ok(tally) => println!(rt; "{tally}"),
        Err(_) => println!(rt; "cannot be read"),
    }
}

fn main(rt: HostRuntime) -> io::Result<()> {
    for name in NAMES.iter() {
        report(&rt, name)?;
    }
    Ok(())
}
