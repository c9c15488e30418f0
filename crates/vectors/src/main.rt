// Replays the recorded list, which it reads from standard input: published vectors and the Rust's answers, each record through the one-shots,
// and short ones through the sessions, cut everywhere. It counts what was equal, and stops at the first record that is not.
#![tactic(auto)]

ghost use Rattle.std.specs.Prelude.{◌≡◌, ◌+◌, ◌≤◌, ◌<◌, length, IfOk};
ghost use Rattle.vectors.specs.Walk.{Walked};

use crate::replay::{Fault, List, Section};
use recorded::list::Mark;
use std::fmt;
use std::io::Read;

mod records;
mod replay;
mod tally;

// What the list can have.
const ROOM: usize = 131072;

// What is wrong with the list: a record, counted from 1, or what stands at a place.
#[derive(Clone, Copy)]
enum Wrong {
    Record(usize),
    Place(usize),
}

impl fmt::Display for Wrong {
    fn fmt<W: fmt::Write>(&self, f: &mut fmt::Formatter<W>) -> fmt::Result {
        match *self {
            Wrong::Record(number) => write!(f, "record {number} differs"),
            Wrong::Place(at) => write!(f, "bad list at byte {at}"),
        }
    }
}

impl List<'_> {
    // A section of the list, behind so many records of earlier ones.
    fn section(&self, from: usize, until: Mark, before: usize) -> Result<Section, Wrong>
        requires { (from ≤ length self.now.bytes.now) × (before ≤ 4294967296) }
        ensures inside { IfOk result (λ s. s.at < length self.now.bytes.now) }
        ensures walked { IfOk result (λ s. Walked self.now.bytes.now from s.at s.tally) }
    {
        self.walk(from, until)
            .map_err(|stopped| match stopped.fault {
                Fault::Differs => Wrong::Record(before + stopped.section.records() + 1),
                Fault::Malformed => Wrong::Place(stopped.section.at),
            })
    }

    // The published vectors and the recorded answers, where all are equal.
    fn replayed(&self) -> Result<(Section, Section), Wrong>
        ensures published { IfOk result (λ p. Walked self.now.bytes.now 0 p.0.at p.0.tally) }
        ensures recorded { IfOk result (λ p. Walked self.now.bytes.now (p.0.at + 1) p.1.at p.1.tally) }
        ensures whole { IfOk result (λ p. p.1.at + 1 ≡ length self.now.bytes.now) }
    {
        let published = self.section(0, Mark::Separator, 0)?;
        let recorded = self.section(published.at + 1, Mark::End, published.records())?;
        if recorded.at + 1 != self.bytes.len() {
            return Err(Wrong::Place(recorded.at + 1));
        }
        Ok((published, recorded))
    }
}

// Reads until the input ends, a read fails, or there is no room left: how many bytes that were.
fn read<R: Read>(input: &mut R, room: &mut [u8]) -> usize
    ensures { result ≤ length room.new }
{
    let mut n = 0;
    while n < room.len() {
        match input.read(&mut room[n..]) {
            Ok(more) if more > 0 => n += more,
            _ => break,
        }
    }
    n
}

// A line that cannot be written is not told: the exit status is 0 always, as the hub program's.
fn main(rt: HostRuntime) {
    let mut room = [0; ROOM];
    let n = read(&mut rt.reader(), &mut room);
    let list = List { bytes: &room[..n] };
    match list.replayed() {
        Ok((published, recorded)) => {
            let a = published.tally;
            let b = recorded.tally;
            let _ = println!(rt; "published: {a}");
            let _ = println!(rt; "recorded: {b}");
            let seals = a.cut_seals + b.cut_seals;
            let openings = a.cut_openings + b.cut_openings;
            let macs = a.cut_macs + b.cut_macs;
            let _ = println!(rt; "cut: {seals} seals, {openings} openings, {macs} MACs equal");
        }
        Err(wrong) => {
            let _ = println!(rt; "{wrong}");
        }
    }
}
