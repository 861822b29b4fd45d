// Time and utility along a row of jobs (VI.3, VI.5).
ghost use Rattle.std.specs.Prelude.{◌≡◌, false, ◌+◌, ◌*◌, ◌≤◌, ◌<◌, nat_abs, ◌+ℤ◌};
ghost use Rattle.gus.specs.Course.{start, earned, onward, denser};
ghost use Rattle.planner.specs.Sheet.{worth_seen};
ghost use Rattle.planner.specs.Seen.{seen_by};
ghost use Rattle.planner.specs.Asking.{Stepping, Spending, Earning};

use crate::sheet::Column;
use crate::view::View;
use curve::question::worth_before;
use gus::Course;

// A stint of a job: in this mode, for so long.
#[derive(Clone, Copy)]
pub(crate) struct Stint {
    pub(crate) job: usize,
    pub(crate) back: bool,
    pub(crate) time: u32,
}

pub(crate) fn plus(gain: i32, worth: i64) -> i32
    requires { (nat_abs gain ≤ 31 * 1_000_000) × (nat_abs worth ≤ 1_000_000) }
    ensures { result ≡ gain +ℤ worth }
{
    gain + worth as i32
}

impl View<'_> {
    // What finishing a job at a moment is worth, by its curve in the book.
    fn worth_of(&self, job: usize, finish: u32) -> Option<i64>
        requires { job < 32 }
        ensures { result ≡ worth_seen self.now.bytes.now self.now.sheet.now job finish }
    {
        let end = self.sheet.cell(job, Column::End) as usize;
        let pieces = self.sheet.cell(job, Column::Pieces) as usize;
        worth_before(self.bytes, end, pieces, finish)
    }

    // What a stint earns that is done once `time` has passed, in a group and in a choice alike: "A normal run that is all its run time left
    // earns its worth at that moment", or none. Rollback earns 0 at any time. Inlined by our word: left to the
    // compiler, a plan of one long chain takes twice as long.
    #[inline]
    pub(crate) fn earn(&self, s: Stint, time: u32) -> Option<i64>
        requires { Earning self.now.moment s.job time }
        ensures { result ≡ earned (seen_by self.now) s.job s.back s.time (self.now.moment + time) }
    {
        if s.back {
            return Some(0);
        }
        if s.time == self.sheet.cell(s.job, Column::Run) {
            return self.worth_of(s.job, self.moment + time);
        }
        Some(0)
    }

    // That stint after a course that began at the planned moment. Inlined, so that a job by itself is not asked whether it runs to its end.
    #[inline]
    pub(crate) fn step(&self, s: Stint, c: Course) -> Course
        requires { Spending (seen_by self.now) self.now.moment s.job s.time c }
        ensures { result ≡ onward (seen_by self.now) self.now.moment s.job s.back s.time c }
    {
        let time = c.time + s.time;
        match self.earn(s, time) {
            Some(worth) => Course {
                time,
                gain: plus(c.gain, worth),
                ..c
            },
            None => Course {
                time,
                inside: false,
                ..c
            },
        }
    }

    // A job run to its end by itself, from the planned moment on.
    pub(crate) fn run_alone(&self, job: usize) -> Course
        requires { Stepping (seen_by self.now) self.now.moment job start }
        ensures { result ≡ onward (seen_by self.now) self.now.moment job false ((seen_by self.now).run job) start }
    {
        let whole = Stint {
            job,
            back: false,
            time: self.sheet.cell(job, Column::Run),
        };
        self.step(whole, Course::START)
    }
}

// Whether a gives more utility per millisecond than b.
pub(crate) fn beats(a: Course, b: Course) -> bool
    ensures { result ≡ denser a b }
{
    curve::denser(a.gain, a.time, b.gain, b.time)
}
