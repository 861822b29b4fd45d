// The plan of a book: the reader's refusal, KNOT, or the victims and the rounds after them.
ghost use Rattle.std.specs.Prelude.{◌≡◌};
ghost use Rattle.planner.specs.Planned.{planned_of};
ghost use Rattle.planner.specs.Told.{plan_told};
ghost use Rattle.book.specs.Format.{book_of};
ghost use Rattle.opening.specs.Planned.{start_from};
ghost use Rattle.planner.specs.Answering.{plan_in, Chosen, Cleared};

use crate::prepare::prepare;
use crate::rounds::rounds;
use crate::settle::settle;
use crate::sheet::Sheet;
use crate::{BookPlan, PlanParts, State, Victims};
use book::Judged;
use book::judge::judge;
use cursor::Refusal;
use opening::start::open_jobs;

// The state of the first round, with the victims in rollback. Opening and settling are a function of their own, and so are the rounds: with
// more code around it the compiler no longer joins the copies that handing the state on would make, 5 KB of stack each.
fn first_state(bytes: &[u8], j: &Judged, v: Victims, sheet: &Sheet) -> State
    requires { Chosen bytes.now j.now v }
    ensures { result ≡ record { jobs = start_from (book_of bytes.now); holders = (book_of bytes.now).holders; sheet = sheet.now } }
{
    let jobs = open_jobs(bytes, &j.starts, j.jobs);
    let holders = j.holders;
    let opened = State {
        jobs,
        holders,
        sheet: *sheet,
    };
    settle(opened, v)
}

fn plan_rounds(bytes: &[u8], j: &Judged, v: Victims, sheet: &Sheet) -> PlanParts
    requires { Cleared bytes.now j.now sheet.now v }
    ensures { plan_in v result ≡ planned_of bytes.now }
{
    let state = first_state(bytes, j, v, sheet);
    rounds(bytes, state, j.jobs, j.now)
}

// The sheet is laid only for a book that is accepted: it would be most of what a refused one costs. It is prepared where it stands and then goes
// into the state: lent out of a state, it would have the whole state copied at each handing on. No more rounds than jobs, since each ends one.
pub fn plan(bytes: &[u8]) -> Result<BookPlan, Refusal>
    ensures { result ≡ plan_told (planned_of bytes.now) }
{
    let j = judge(bytes)?;
    let mut sheet = Sheet::blank();
    let v = prepare(bytes, &j, &mut sheet)?;
    let p = plan_rounds(bytes, &j, v, &sheet);
    let victims = v.list;
    let parts = p.parts;
    Ok(BookPlan {
        victims,
        victimcount: v.count,
        parts,
        count: p.count,
        rounds: p.rounds,
        total: p.total,
        end: p.moment,
    })
}
