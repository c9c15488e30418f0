// The whole list, section by section: each has its records, and a mark behind them.
ghost use Rattle.std.specs.Prelude.{◌≡◌, ◌≤◌, ◌+◌, length, drop, IfOk, IfErr};
ghost use Rattle.std.specs.Option.{MatchOption};
ghost use Rattle.recorded.specs.Entries.{Marked};
ghost use Rattle.vectors.specs.Tallies.{Small};

use crate::records;
use crate::tally::Tally;
use recorded::list::{Entry, Mark};

// The list, as it was read.
#[derive(Clone, Copy)]
pub struct List<'a> {
    pub bytes: &'a [u8],
    pub ghost short: { length bytes.now ≤ 131072 },
}

// A section, replayed up to a place in the list.
#[derive(Clone, Copy)]
pub struct Section {
    pub at: usize,
    pub tally: Tally,
    pub ghost near: { at ≤ 131072 },
    pub ghost small: { Small tally at },
}

// Why a replay stops: a record differs from what is recorded, or the list is malformed.
#[derive(Clone, Copy)]
pub enum Fault {
    Differs,
    Malformed,
}

// Where a replay stops, and why: behind the section's last record that is equal.
#[derive(Clone, Copy)]
pub struct Stopped {
    pub fault: Fault,
    pub section: Section,
}

impl Section {
    ghost use Rattle.vectors.specs.Walk.{Stepped};

    // How many records it has.
    pub fn records(&self) -> usize
        ensures { result ≤ 4294967296 }
    {
        let tally = &self.tally;
        tally.seals + tally.refusals + tally.macs + tally.streams
    }

    fn stopped(self, fault: Fault) -> Stopped
        ensures { (result.fault ≡ fault) × (result.section ≡ self) }
    {
        Stopped {
            fault,
            section: self,
        }
    }

    // With the record that the rest of the list begins with, or none where the mark stands.
    fn next(self, rest: &[u8], until: Mark) -> Result<Option<Section>, Stopped>
        requires { self.at + length rest.now ≤ 131072 }
        ensures step { IfOk result (λ o. MatchOption o (Marked rest.now until) (λ s. Stepped rest.now self s)) }
        ensures stop { IfErr result (λ e. e.section ≡ self) }
    {
        match Entry::first(rest) {
            Some(Entry::Mark(mark)) if mark == until => Ok(None),
            Some(Entry::Record(kind, short, end)) => {
                let Some(cuttings) = records::replayed(kind, &short) else {
                    return Err(self.stopped(Fault::Differs));
                };
                let mut tally = self.tally;
                tally.count(kind, cuttings);
                Ok(Some(Section {
                    at: self.at + end,
                    tally,
                }))
            }
            _ => Err(self.stopped(Fault::Malformed)),
        }
    }
}

impl List<'_> {
    ghost use Rattle.vectors.specs.Walk.{Walked};

    // The records from place `from` on, up to a mark.
    pub fn walk(&self, from: usize, until: Mark) -> Result<Section, Stopped>
        requires { from ≤ length self.now.bytes.now }
        ensures marked { let l = self.now.bytes.now in IfOk result (λ s.
            Walked l from s.at s.tally × Marked (drop s.at l) until) }
        ensures stopped { let l = self.now.bytes.now in IfErr result (λ e.
            Walked l from e.section.at e.section.tally × (e.section.at ≤ length l)) }
    {
        let mut section = Section {
            at: from,
            tally: Tally::default(),
        };
        while let Some(further) = section.next(&self.bytes[section.at..], until)? {
            section = further;
        }
        Ok(section)
    }
}
