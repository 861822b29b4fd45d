// One round (VI.1): the group that it appends to the plan.
ghost use Rattle.std.specs.Prelude.{◌≡◌};
ghost use Rattle.gus.specs.Choice.{by_density};
ghost use Rattle.gus.specs.Round.{worthwhile};
ghost use Rattle.planner.specs.Seen.{seen_by};
ghost use Rattle.planner.specs.Asking.{Scanning};
ghost use Rattle.planner.specs.LaidOut.{laid_out};
ghost use Rattle.planner.specs.Round.{round_of};

use crate::GroupParts;
use crate::view::View;
use gus::Course;

// "is appended if above zero"
fn above_zero(c: Course) -> bool
    ensures { result ≡ worthwhile c }
{
    0 < c.gain
}

impl View<'_> {
    // A group without parts: no group is worth more than zero, and the plan ends.
    pub(crate) fn round(&self) -> GroupParts
        requires { Scanning (seen_by self.now) self.now.jobs self.now.moment }
        ensures { result ≡ laid_out (round_of by_density (seen_by self.now) self.now.moment) }
    {
        let b = self.scan();
        if above_zero(b.course) {
            let last = usize::from(b.last);
            return self.group(last);
        }
        GroupParts::NONE
    }
}
