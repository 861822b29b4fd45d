// The choice of a mode (VI.5).
ghost use Rattle.std.specs.Prelude.{◌≡◌, ◌+◌, get_or};
ghost use Rattle.gus.specs.Choice.{by_density};
ghost use Rattle.laws.specs.Placed.{chain_in};
ghost use Rattle.planner.specs.Seen.{seen_by};
ghost use Rattle.planner.specs.Asking.{Along, Undoing, Lasting, Placing};
ghost use Rattle.planner.specs.Lost.{inside_after};
ghost use Rattle.planner.specs.Turn.{Own};
ghost use Rattle.planner.specs.Choosing.{undone_wins, mode_at};

use crate::chain::Chain;
use crate::course::{Stint, plus};
use crate::sheet::{Column, NEVER};
use gus::Course;

impl Chain<'_> {
    // The stint of the member at place k in its own mode.
    fn own_stint(&self, k: usize) -> Stint
        requires { Placing self.now.members.now k }
        ensures { Own (seen_by self.now.view.now) self.now.members.now k result.job result.back result.time }
    {
        let job = usize::from(self.members[k]);
        let back = self.view.sheet.rolls(job);
        let time = self.span_at(k, back);
        Stint { job, back, time }
    }

    // Whether a course that has taken so much time with the member at place k goes on inside its curves, each later member in its own mode.
    fn stays_inside(&self, k: usize, before: u32) -> bool
        requires { Lasting (seen_by self.now.view.now) self.now.view.now.moment self.now.members.now k before }
        ensures { result ≡ inside_after (seen_by self.now.view.now) self.now.view.now.moment (chain_in self.now.members.now (k + 1)) before }
    {
        let mut time = before;
        for i in k + 1..32 {
            let stint = self.own_stint(i);
            time += stint.time;
            if self.view.earn(stint, time).is_none() {
                return false;
            }
        }
        true
    }

    // Whether the job at place k does better by rolling back than by running. Both courses go along the chain in one loop, as plain numbers: a
    // course as one value is packed and unpacked at each member. The loop goes on while neither has none among its credits. "a course with none
    // among its credits loses to one without, and if both have it normal wins" (02, R-7): so by none in the course of rolling back it is decided,
    // and by none in the normal one it is asked of the other alone.
    fn better_undone(&self, k: usize, c: Course) -> bool
        requires { Undoing (seen_by self.now.view.now) self.now.view.now.moment self.now.members.now k c }
        ensures { result ≡ undone_wins (seen_by self.now.view.now) self.now.view.now.moment (get_or self.now.members.now k 0) (get_or self.now.members.now (k + 1) 0) (chain_in self.now.members.now (k + 1)) c }
    {
        let job = usize::from(self.members[k]);
        let next = usize::from(self.members[k + 1]);
        let run = Stint {
            job,
            back: false,
            time: self.view.sheet.cell(next, Column::Hold),
        };
        let mut undone_time = c.time + self.view.sheet.cell(next, Column::Undo);
        let mut undone_gain = c.gain;
        let mut time = c.time + run.time;
        let Some(credit) = self.view.earn(run, time) else {
            return self.stays_inside(k, undone_time);
        };
        let mut gain = plus(c.gain, credit);
        for i in k + 1..32 {
            let stint = self.own_stint(i);
            time += stint.time;
            undone_time += stint.time;
            let Some(undone_credit) = self.view.earn(stint, undone_time) else {
                return false;
            };
            undone_gain = plus(undone_gain, undone_credit);
            let Some(member_credit) = self.view.earn(stint, time) else {
                return self.stays_inside(i, undone_time);
            };
            gain = plus(gain, member_credit);
        }
        curve::denser(undone_gain, undone_time, gain, time)
    }

    // Whether the member at place k rolls back; the last one keeps its mode. Where the group so far has none among its credits both courses have,
    // and nothing is reckoned.
    pub(crate) fn rolls_back(&self, k: usize, c: Course) -> bool
        requires { Along (seen_by self.now.view.now) self.now.view.now.moment self.now.members.now k c }
        ensures { result ≡ mode_at by_density (seen_by self.now.view.now) self.now.view.now.moment self.now.members.now k c }
    {
        let job = usize::from(self.members[k]);
        if self.view.sheet.rolls(job) {
            return true;
        }
        if 31 <= k || self.view.sheet.cell(job, Column::Rollback) == NEVER {
            return false;
        }
        c.inside && self.better_undone(k, c)
    }
}
