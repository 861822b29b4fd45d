// The jobs of all records, by number.
ghost use Rattle.std.specs.Prelude.{◌≡◌};
ghost use Rattle.opening.specs.Taken.{jobs_in};

use crate::record::job_at;
use job::{Held, Job, Request};

// written out, so that an array of it is plain stores
const VACANT: Job = Job {
    rolling: false,
    run: 0,
    rollback: 0,
    request: Request::NONE,
    held: [Held::FREE; 32],
};

// Of the records that start at the first `jobs` of these places, at most 32 of them. Places and count stay two: `jobs_in` and the promise speak of both.
#[tactic(auto, unfolding(laws::specs::Count::upto, crate::specs::Taken::jobs_in, laws::specs::Listed::listed))]
pub fn open_jobs(s: &[u8], starts: &[usize; 33], jobs: usize) -> [Job; 32]
    ensures { result ≡ jobs_in s.now starts.now jobs }
{
    let mut taken = [VACANT; 32];
    // by index: after `iter_mut` with `zip` nothing is known of the elements
    for i in 0..jobs.min(32) {
        taken[i] = job_at(s, starts[i]);
    }
    taken
}
