// How many records of each kind were equal, and how many cuttings.
ghost use Rattle.std.specs.Prelude.{◌≡◌};
ghost use Rattle.recorded.specs.Entries.{code};
ghost use Rattle.vectors.specs.Tallies.{counted, Small};

use cuttings::Cuttings;
use recorded::list::Kind;
use std::fmt;

#[derive(Clone, Copy, Default)]
pub struct Tally {
    pub seals: usize,
    pub refusals: usize,
    pub macs: usize,
    pub streams: usize,
    pub cut_seals: usize,
    pub cut_openings: usize,
    pub cut_macs: usize,
}

impl Tally {
    // One record more of a kind, and its cuttings.
    pub fn count(&mut self, kind: Kind, cuttings: Cuttings)
        requires { Small self.old 131072 }
        ensures { self.new ≡ counted self.old (code kind) cuttings.count }
    {
        match kind {
            Kind::Seal => {
                self.seals += 1;
                self.cut_seals += cuttings.count;
                self.cut_openings += cuttings.count;
            }
            Kind::Refused => self.refusals += 1,
            Kind::Mac => {
                self.macs += 1;
                self.cut_macs += cuttings.count;
            }
            Kind::Stream => self.streams += 1,
        }
    }
}

impl fmt::Display for Tally {
    fn fmt<W: fmt::Write>(&self, f: &mut fmt::Formatter<W>) -> fmt::Result {
        let Tally {
            seals,
            refusals,
            macs,
            streams,
            ..
        } = *self;
        write!(
            f,
            "{seals} seals, {refusals} refusals, {macs} MACs, {streams} streams equal"
        )
    }
}
