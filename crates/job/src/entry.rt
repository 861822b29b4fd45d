// What a part does to one held resource.
ghost use Rattle.std.specs.Prelude.{◌≡◌};
ghost use Rattle.job.specs.Held.{after_grant, after_run, after_rollback};

use crate::{Held, times};

impl Held {
    // `never`: the job's rollback or the granted amount is never.
    pub(crate) fn after_grant(self, never: bool, amount: u16) -> Held
        ensures { result ≡ after_grant never amount self }
    {
        if 0 < self.hold {
            Held {
                rollback: times::or_never(never, self.rollback.saturating_add(amount)),
                ..self
            }
        } else {
            self
        }
    }

    pub(crate) fn after_run(self, time: u16) -> Held
        ensures { result ≡ after_run time self }
    {
        if self.hold <= time {
            Held::FREE
        } else {
            Held {
                hold: self.hold.saturating_sub(time),
                ..self
            }
        }
    }

    pub(crate) fn after_rollback(self, time: u16) -> Held
        ensures { result ≡ after_rollback time self }
    {
        if self.rollback <= time {
            Held::FREE
        } else {
            Held {
                rollback: self.rollback.saturating_sub(time),
                ..self
            }
        }
    }
}
