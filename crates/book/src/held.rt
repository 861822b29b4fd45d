// The held list of a job.
ghost use Rattle.std.specs.Prelude.{◌≡◌, get_or, set};
ghost use Rattle.cursor.specs.Step.{stands_at};
ghost use Rattle.cursor.specs.Answer.{Says};
ghost use Rattle.book.specs.Format.{held_resource};
ghost use Rattle.book.specs.Judging.{EntryJudged, HeldJudged};

use crate::rules::least_rollback;
use cursor::field::{RANGE, TWICE, field, rule};
use cursor::{FieldRead, Refusal};

fn holder_at(holders: &[u8; 32], resource: usize) -> u8
    ensures { result ≡ get_or holders.now resource 0 }
{
    holders.get(resource).copied().unwrap_or(0)
}

fn hold_for(holders: &mut [u8; 32], resource: usize, job: u8)
    ensures { holders.new ≡ set holders.old resource job }
{
    if resource < 32 {
        holders[resource] = job;
    }
}

fn held_resource(
    s: &[u8],
    resources: usize,
    holders: &[u8; 32],
    at: usize,
) -> Result<FieldRead, Refusal>
    ensures { Says (held_resource s.now resources holders.now (stands_at at)) 255 result }
{
    let a = field(s, at, 1, 0, 255, RANGE)?;
    let known = rule(a, a.value < resources, RANGE, a.place)?;
    let free = holder_at(holders, known.value) == 255;
    rule(known, free, TWICE, known.place)
}

// An entry judged, and its resource noted as the job's.
fn entry_judged(
    s: &[u8],
    job: u8,
    resources: usize,
    run: usize,
    rollback: usize,
    holders: &mut [u8; 32],
    at: usize,
) -> Result<FieldRead, Refusal>
    ensures { EntryJudged s.now job resources run rollback holders.old at result holders.new }
{
    let a = held_resource(s, resources, holders, at)?;
    let b = field(s, a.next, 2, 1, run, RANGE)?;
    let low = least_rollback(rollback);
    let c = field(s, b.next, 2, low, rollback, RANGE)?;
    hold_for(holders, a.value, job);
    Ok(c)
}

pub(crate) fn held_judged(
    s: &[u8],
    job: u8,
    resources: usize,
    run: usize,
    rollback: usize,
    holders: &mut [u8; 32],
    at: usize,
) -> Result<FieldRead, Refusal>
    ensures { HeldJudged s.now job resources run rollback holders.old at result holders.new }
{
    let count = field(s, at, 1, 0, 32, RANGE)?;
    let mut read = count;
    for _ in 0..count.value {
        read = entry_judged(s, job, resources, run, rollback, holders, read.next)?;
    }
    Ok(read)
}
