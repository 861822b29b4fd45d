// Round after round (VI.1), until no group is worth more than zero.
ghost use Rattle.book.specs.Format.{book_of};
ghost use Rattle.gus.specs.Choice.{by_density};
ghost use Rattle.gus.specs.Round.{rounds};
ghost use Rattle.opening.specs.Start.{pay_from};
ghost use Rattle.planner.specs.Working.{Starting};
ghost use Rattle.planner.specs.Staged.{Rounded};

use crate::apply::{holders_after, worked_job};
use crate::keep::{Asking, EVERY};
use crate::view::View;
use crate::{PlanParts, State};
use gus::Part;

// The state stands in one local from the first round to the last, and each part changes there what it touches: handed from function to
// function it would be copied each time, and that is most of what a round with short chains costs. Who may still ask for something is
// on a list beside it.
pub(crate) fn rounds(bytes: &[u8], start: State, n: usize, t: u32) -> PlanParts
    requires { Starting bytes.now start n t }
    ensures { Rounded (rounds 32 by_density (pay_from (book_of bytes.now)) start.jobs t) result }
{
    let mut state = start;
    let mut asking = Asking {
        list: EVERY,
        count: n,
    };
    let mut plan = PlanParts {
        parts: [Part::EMPTY; 96],
        count: 0,
        rounds: 0,
        total: 0,
        moment: t,
    };
    for _ in 0..32usize {
        let view = View {
            bytes,
            sheet: &state.sheet,
            moment: plan.moment,
            jobs: n,
        };
        let g = view.round();
        if g.count == 0 {
            return plan;
        }
        let parts = g.parts;
        for p in &parts[..g.count] {
            let number = usize::from(p.job);
            let new = worked_job(state.jobs[number], p.rolling, p.time);
            state.jobs[number] = new;
            state.holders = holders_after(state.holders, p.job, &new.held);
            state.sheet.put_worked(&mut asking, p.job, &new);
            // no push: 01 asks for an array of 96 by value
            plan.parts[plan.count] = *p;
            plan.count += 1;
        }
        plan.rounds += 1;
        plan.total += g.course.gain;
        plan.moment += g.course.time;
    }
    plan
}
