// One job of the planner by value, and what a part does to it (01, "What a part does to the book"; VI.4).
#![tactic(auto)]

ghost use Rattle.std.specs.Prelude.{◌≡◌};
ghost use Rattle.job.specs.Job.{granted, ran, rolled_back};

mod entry;
mod times;

// Not held, no request and never are numbers and no `Option`: they are so in the book and in the definitions that the promises cite
// (`free`, `no_request`, `never`).

// The rollback time of what can't be rolled back.
pub const NEVER: u16 = 65535;

// What a job holds of one resource. It stands at the resource's number; hold 0: not held.
#[derive(Clone, Copy)]
pub struct Held {
    pub hold: u16,
    pub rollback: u16,
}

// What a job waits for. Resource 255: nothing, and then both times are 0.
#[derive(Clone, Copy)]
pub struct Request {
    pub resource: u8,
    pub hold: u16,
    pub rollback: u16,
}

// A job is left while its run time and its rollback time are both at least 1.
#[derive(Clone, Copy)]
pub struct Job {
    pub rolling: bool,
    pub run: u16,
    pub rollback: u16,
    pub request: Request,
    pub held: [Held; 32],
}

impl Held {
    pub const FREE: Held = Held {
        hold: 0,
        rollback: 0,
    };
}

impl Request {
    pub const NONE: Request = Request {
        resource: 255,
        hold: 0,
        rollback: 0,
    };
}

// Each method changes what is held in place, in one pass: an array that is handed over by value is copied.
#[tactic(auto, using(crate::proofs::Pass::pass_more), unfolding(crate::specs::Job::granted, crate::specs::Job::ran, crate::specs::Job::rolled_back))]
impl Job {
    // "A normal part first grants its job's request, if any."
    pub fn grant(mut self) -> Job
        ensures { result ≡ granted self }
    {
        let resource = usize::from(self.request.resource);
        if 32 <= resource {
            return self;
        }
        let amount = self.request.rollback;
        let never = times::either_never(self.rollback, amount);
        for h in &mut self.held {
            *h = h.after_grant(never, amount);
        }
        self.held[resource] = Held {
            hold: self.request.hold,
            rollback: times::or_never(never, amount),
        };
        self.rollback = times::or_never(never, self.rollback.saturating_add(amount));
        self.request = Request::NONE;
        self
    }

    // "A normal part takes its time from run time and holds."
    pub fn run_for(mut self, time: u16) -> Job
        ensures { result ≡ ran time self }
    {
        for h in &mut self.held {
            *h = h.after_run(time);
        }
        self.run = self.run.saturating_sub(time);
        self
    }

    // "A rollback part puts its job into rollback and drops its request", and takes its time from the rollbacks.
    pub fn roll_back(mut self, time: u16) -> Job
        ensures { result ≡ rolled_back time self }
    {
        for h in &mut self.held {
            *h = h.after_rollback(time);
        }
        self.rolling = true;
        self.rollback = self.rollback.saturating_sub(time);
        self.request = Request::NONE;
        self
    }
}
