// Along the chain of a job, member by member (VI.3): the modes are chosen and the course is taken, in one walk.
ghost use Rattle.std.specs.Prelude.{◌≡◌};
ghost use Rattle.gus.specs.Course.{start};
ghost use Rattle.gus.specs.Choice.{by_density};
ghost use Rattle.planner.specs.Seen.{seen_by};
ghost use Rattle.planner.specs.Growing.{Walking, grown, modes_out};

use crate::chain::Chain;
use crate::course::Stint;
use gus::Course;

impl Chain<'_> {
    // The course of the members, and the mode of each at the front of a lent row, which is false before. A job is scored by its course alone; the
    // winner's parts are laid out by the modes (group.rt). The row is the caller's: what comes back by value is copied for each job of each round.
    pub(crate) fn walk(&self, modes: &mut [bool; 32]) -> Course
        requires { Walking by_density (seen_by self.now.view.now) self.now.view.now.moment self.now.members.now self.now.from modes.old }
        ensures { (result ≡ (grown by_density (seen_by self.now.view.now) self.now.view.now.moment self.now.members.now self.now.from start).course) × (modes.new ≡ modes_out (grown by_density (seen_by self.now.view.now) self.now.view.now.moment self.now.members.now self.now.from start)) }
    {
        let mut c = Course::START;
        for k in self.from..32 {
            let job = usize::from(self.members[k]);
            let back = self.rolls_back(k, c);
            let time = self.span_at(k, back);
            c = self.view.step(Stint { job, back, time }, c);
            modes[k - self.from] = back;
        }
        c
    }
}
