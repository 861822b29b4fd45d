// The best group of a round (VI.1).
ghost use Rattle.std.specs.Prelude.{◌≡◌, ◌<◌};
ghost use Rattle.gus.specs.Course.{start, to_end};
ghost use Rattle.gus.specs.Choice.{by_density};
ghost use Rattle.gus.specs.Group.{group_of};
ghost use Rattle.gus.specs.Round.{offered, consider, best_of};
ghost use Rattle.planner.specs.Seen.{seen_by};
ghost use Rattle.planner.specs.Asking.{Stepping, Scanning};

use crate::best::pick;
use crate::course::beats;
use crate::sheet::Column;
use crate::view::View;
use gus::{Best, Course};

// A job's group against the best of those before it. "A group in which any job would finish at a moment with none is not a candidate" (02, R-7).
fn offer_group(job: u8, c: Course, b: Best) -> Best
    ensures { result ≡ offered job c b }
{
    if c.inside {
        let wins = beats(c, b.course);
        return pick(wins, job, c, b);
    }
    b
}

impl View<'_> {
    // A job to its end by itself.
    fn alone(&self, job: usize) -> Course
        requires { Stepping (seen_by self.now) self.now.moment job start }
        ensures { result ≡ to_end (seen_by self.now) self.now.moment job start }
    {
        if self.sheet.rolls(job) {
            return Course {
                time: self.sheet.cell(job, Column::Rollback),
                ..Course::START
            };
        }
        self.run_alone(job)
    }

    // The course of a job's group. A job that waits for nobody is its whole chain, and most wait for nobody.
    fn score_of(&self, last: usize) -> Course
        requires { Stepping (seen_by self.now) self.now.moment last start }
        ensures { result ≡ (group_of by_density (seen_by self.now) self.now.moment last).course }
    {
        if 32 <= self.sheet.cell(last, Column::Waits) {
            return self.alone(last);
        }
        let mut members = [0; 32];
        let chain = self.chain_of(last, &mut members);
        let mut modes = [false; 32];
        chain.walk(&mut modes)
    }

    fn is_left(&self, job: usize) -> bool
        requires { job < 32 }
        ensures { result ≡ (seen_by self.now).left job }
    {
        0 < self.sheet.cell(job, Column::Run) && 0 < self.sheet.cell(job, Column::Rollback)
    }

    // A job, if it is left, against the best of those before it.
    fn consider(&self, job: usize, b: Best) -> Best
        requires { Stepping (seen_by self.now) self.now.moment job start }
        ensures { result ≡ consider by_density (seen_by self.now) self.now.moment job b }
    {
        if self.is_left(job) {
            let c = self.score_of(job);
            return offer_group(job as u8, c, b);
        }
        b
    }

    // The best group among those of all jobs, as numbers.
    pub(crate) fn scan(&self) -> Best
        requires { Scanning (seen_by self.now) self.now.jobs self.now.moment }
        ensures { result ≡ best_of by_density (seen_by self.now) self.now.moment }
    {
        let mut b = Best::NONE;
        for job in 0..self.jobs {
            b = self.consider(job, b);
        }
        b
    }
}
