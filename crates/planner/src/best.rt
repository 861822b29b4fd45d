// The choice of one job among several, by whatever test (V.1, VI.1).
ghost use Rattle.std.specs.Prelude.{◌≡◌, cond};
ghost use Rattle.planner.specs.Picking.{picked};

use gus::{Best, Course};

// One of two, as a move and not as a jump: which job wins is hard to foresee, and here it is asked for each job of each round.
fn either<T: Copy>(first: bool, a: T, b: T) -> T
    ensures { result ≡ cond first a b }
{
    if first { a } else { b }
}

// The job, where it wins or none is taken yet. A tie is no win: it stays with the lower number.
pub(crate) fn pick(wins: bool, job: u8, c: Course, b: Best) -> Best
    ensures { result ≡ picked wins job c b }
{
    let taken = either(b.some, wins, true);
    let last = either(taken, job, b.last);
    let time = either(taken, c.time, b.course.time);
    let gain = either(taken, c.gain, b.course.gain);
    let inside = either(taken, c.inside, b.course.inside);
    Best {
        some: true,
        last,
        course: Course { time, gain, inside },
    }
}
