// Wait circles (V.1): "A circle of waits is a deadlock".
ghost use Rattle.std.specs.Prelude.{◌≡◌, ◌<◌};
ghost use Rattle.gus.specs.Victims.{circle_of};
ghost use Rattle.planner.specs.Sheet.{waits_in};
ghost use Rattle.planner.specs.Asking.{Waiting};
ghost use Rattle.planner.specs.Circling.{circles_of};

use crate::sheet::{Column, Sheet};

// No Option, since the definitions of circles and of a knot (gus/specs/Victims.antt) have 255 for nobody, and so has the array of circles.
pub(crate) const NOBODY: u8 = 255;

impl Sheet {
    // The lowest member of the circle that a job is on, and nobody where it is on none. Most jobs wait for nobody, which ends the walk at once.
    fn circle_of(&self, home: usize) -> u8
        requires { home < 32 }
        ensures { result ≡ circle_of (waits_in self.now) home }
    {
        let mut low = home;
        let mut job = self.cell(home, Column::Waits) as usize;
        for _ in 0..32usize {
            if 32 <= job {
                return NOBODY;
            }
            if job == home {
                return low as u8;
            }
            low = low.min(job);
            job = self.cell(job, Column::Waits) as usize;
        }
        NOBODY
    }

    // The circle of each job, found once; from the n-th job on nobody waits.
    pub(crate) fn circles(&self, n: usize) -> [u8; 32]
        requires { Waiting n (waits_in self.now) }
        ensures { result ≡ circles_of (waits_in self.now) }
    {
        let mut found = [NOBODY; 32];
        for (job, circle) in found[..n].iter_mut().enumerate() {
            *circle = self.circle_of(job);
        }
        found
    }
}
