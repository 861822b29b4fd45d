// The victim of a wait circle (V.1): "the job, not marked never, of least loss".
ghost use Rattle.std.specs.Prelude.{◌≡◌};
ghost use Rattle.gus.specs.Course.{start};
ghost use Rattle.gus.specs.Victims.{loss_of, offer, victim_of};
ghost use Rattle.planner.specs.Seen.{seen_by};
ghost use Rattle.planner.specs.Asking.{Stepping, Seeking, Offered};

use crate::best::pick;
use crate::course::beats;
use crate::sheet::{Column, NEVER};
use crate::view::View;
use gus::{Best, Course};

impl View<'_> {
    // "worth at now + run time left, divided by run time left"; no member of a circle is in rollback (R-8). "none counts as 0" (R-7): a loss is
    // always there.
    fn loss_of(&self, job: usize) -> Course
        requires { Stepping (seen_by self.now) self.now.moment job start }
        ensures { result ≡ loss_of (seen_by self.now) self.now.moment job }
    {
        Course {
            inside: true,
            ..self.run_alone(job)
        }
    }

    fn offer(&self, circles: &[u8; 32], low: u8, job: usize, b: Best) -> Best
        requires { Offered (seen_by self.now) self.now.moment job circles.now }
        ensures { result ≡ offer (seen_by self.now) self.now.moment low job b }
    {
        if circles[job] != low {
            return b;
        }
        if self.sheet.cell(job, Column::Rollback) == NEVER {
            return b;
        }
        let c = self.loss_of(job);
        let wins = beats(b.course, c);
        pick(wins, job as u8, c, b)
    }

    // The victim of the circle whose lowest member is low.
    pub(crate) fn victim_of(&self, circles: &[u8; 32], low: u8) -> Best
        requires { Seeking (seen_by self.now) self.now.jobs self.now.moment circles.now low }
        ensures { result ≡ victim_of (seen_by self.now) self.now.moment low }
    {
        let mut b = Best::NONE;
        for job in 0..self.jobs {
            b = self.offer(circles, low, job, b);
        }
        b
    }
}
