// A job's record, and the end of the book.
ghost use Rattle.cursor.specs.Answer.{got, Says};
ghost use Rattle.book.specs.Format.{tail_read};
ghost use Rattle.book.specs.Judging.{RecordJudged};

use crate::held::held_judged;
use crate::pieces::curve_judged;
use crate::request::{request_read, rollback_read};
use crate::rules::mode_ok;
use cursor::field::{MODE, RANGE, TAIL, field, rule};
use cursor::{FieldRead, Refusal};

// A record judged, and what it holds noted as the job's.
pub(crate) fn record_judged(
    s: &[u8],
    job: u8,
    resources: usize,
    holders: &mut [u8; 32],
    at: usize,
) -> Result<FieldRead, Refusal>
    ensures { RecordJudged s.now job resources holders.old at result holders.new }
{
    let mode = field(s, at, 1, 0, 1, RANGE)?;
    let run = field(s, mode.next, 2, 1, 60000, RANGE)?;
    let rollback = rollback_read(s, run.next)?;
    let (request, asked) = request_read(s, resources, run.value, rollback.next)?;
    let list = held_judged(
        s,
        job,
        resources,
        run.value,
        rollback.value,
        holders,
        asked.next,
    )?;
    let last = curve_judged(s, list.next)?;
    let ok = mode_ok(mode.value, rollback.value, request.resource);
    rule(last, ok, MODE, at)
}

pub(crate) fn tail(s: &[u8], last: FieldRead) -> Result<FieldRead, Refusal>
    ensures { Says (tail_read s.now (got last)) last.value result }
{
    rule(last, last.next == s.len(), TAIL, last.next)
}
