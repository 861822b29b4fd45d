// The group of a job (VI.3): its chain, walked, and then its parts laid out by the modes.
ghost use Rattle.std.specs.Prelude.{◌≡◌};
ghost use Rattle.gus.specs.Course.{start};
ghost use Rattle.gus.specs.Choice.{by_density};
ghost use Rattle.gus.specs.Group.{group_of};
ghost use Rattle.planner.specs.Seen.{seen_by};
ghost use Rattle.planner.specs.Asking.{Stepping, Spanning};
ghost use Rattle.planner.specs.Turn.{part_at};
ghost use Rattle.planner.specs.LaidOut.{laid_out};

use crate::GroupParts;
use crate::chain::Chain;
use crate::view::View;
use gus::Part;

impl Chain<'_> {
    // The part of the member at place k in a mode.
    fn part_at(&self, k: usize, back: bool) -> Part
        requires { Spanning (seen_by self.now.view.now) self.now.members.now k }
        ensures { result ≡ part_at (seen_by self.now.view.now) self.now.members.now k back }
    {
        let span = self.span_at(k, back);
        Part {
            job: self.members[k],
            rolling: back,
            time: span as u16,
        }
    }
}

impl View<'_> {
    pub(crate) fn group(&self, last: usize) -> GroupParts
        requires { Stepping (seen_by self.now) self.now.moment last start }
        ensures { result ≡ laid_out (group_of by_density (seen_by self.now) self.now.moment last) }
    {
        let mut members = [0; 32];
        let chain = self.chain_of(last, &mut members);
        let mut modes = [false; 32];
        let course = chain.walk(&mut modes);
        let mut parts = [Part::EMPTY; 32];
        for (place, k) in (chain.from..32).enumerate() {
            parts[place] = chain.part_at(k, modes[place]);
        }
        GroupParts {
            parts,
            count: 32 - chain.from,
            course,
        }
    }
}
