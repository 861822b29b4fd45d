// The victims go into rollback: "It goes into rollback and loses its request."
ghost use Rattle.std.specs.Prelude.{◌≡◌};
ghost use Rattle.gus.specs.Victims.{sent_back, settled};
ghost use Rattle.planner.specs.Settling.{Handed, victims_in};

use crate::{State, Victims};
use job::{Job, Request};

fn sent_back(mut j: Job) -> Job
    ensures { result ≡ sent_back j }
{
    j.rolling = true;
    j.request = Request::NONE;
    j
}

// Of the state's jobs: their rows are settled already.
pub(crate) fn settle(mut s: State, v: Victims) -> State
    requires { Handed v }
    ensures { result ≡ record { jobs = settled s.jobs (victims_in v); holders = s.holders; sheet = s.sheet } }
{
    for victim in &v.list[..v.count] {
        let job = usize::from(*victim);
        s.jobs[job] = sent_back(s.jobs[job]);
    }
    s
}
