// A record's held list where it stands.
ghost use Rattle.std.specs.Prelude.{◌≡◌};
ghost use Rattle.job.specs.Job.{held_at};
ghost use Rattle.opening.specs.Taken.{job_in};

use crate::field::listed_there;
use crate::head::head_at;
use job::Held;

// What the record at a place holds of a resource. Of two entries for one resource the later counts, so they are read from the last back.
#[tactic(auto, using(crate::proofs::Seeking::seeking))]
pub fn held_at(s: &[u8], place: usize, resource: usize) -> Held
    ensures { result ≡ held_at (job_in s.now place) resource }
{
    if 32 <= resource {
        return Held::FREE;
    }
    for k in (0..head_at(s, place).holds).rev() {
        let e = listed_there(s, place, k);
        if usize::from(e.resource) == resource {
            return e.into();
        }
    }
    Held::FREE
}
