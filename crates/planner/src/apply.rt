// What a part does to its job, and to who holds what (VI.4 with 01's rulings).
ghost use Rattle.std.specs.Prelude.{◌≡◌};
ghost use Rattle.job.specs.Job.{worked};
ghost use Rattle.invariants.specs.Holders.{holder_after};
ghost use Rattle.planner.specs.Applied.{holders_after};

use crate::circles::NOBODY;
use job::{Held, Job};
use std::array::from_fn;

pub(crate) fn worked_job(j: Job, rolling: bool, time: u16) -> Job
    ensures { result ≡ worked rolling time j }
{
    if rolling {
        j.roll_back(time)
    } else {
        j.grant().run_for(time)
    }
}

fn holder_after(job: u8, h: Held, holder: u8) -> u8
    ensures { result ≡ holder_after job h.hold holder }
{
    if 0 < h.hold {
        return job;
    }
    if holder == job { NOBODY } else { holder }
}

pub(crate) fn holders_after(holders: [u8; 32], job: u8, held: &[Held; 32]) -> [u8; 32]
    ensures { result ≡ holders_after job held.now holders }
{
    from_fn(|r| holder_after(job, held[r], holders[r]))
}
