// A record's job, with what it holds by resource.
ghost use Rattle.std.specs.Prelude.{◌≡◌};
ghost use Rattle.opening.specs.Taken.{job_in};

use crate::field::listed_there;
use crate::head::head_at;
use job::{Held, Job};

// Of any bytes, at any place; a place without a job where no record stands.
#[tactic(auto, using(crate::proofs::Laid::laying), unfolding(laws::specs::Count::upto, crate::specs::Taken::job_in))]
pub fn job_at(s: &[u8], place: usize) -> Job
    ensures { result ≡ job_in s.now place }
{
    let head = head_at(s, place);
    let mut held = [Held::FREE; 32];
    for k in 0..head.holds {
        let e = listed_there(s, place, k);
        let resource = usize::from(e.resource);
        if resource < held.len() {
            held[resource] = e.into();
        }
    }
    Job {
        rolling: head.rolling,
        run: head.run,
        rollback: head.rollback,
        request: head.request,
        held,
    }
}
