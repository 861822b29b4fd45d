// A job's own rollback time, and its request.
ghost use Rattle.std.specs.Prelude.{◌≤◌};
ghost use Rattle.cursor.specs.Step.{stands_at};
ghost use Rattle.cursor.specs.Answer.{Says};
ghost use Rattle.book.specs.Format.{rollback_read, requested_resource, requested_rollback};
ghost use Rattle.book.specs.Judging.{RequestRead};

use crate::rules::{if_requested, request_ok, rollback_ok};
use cursor::field::{RANGE, field, rule};
use cursor::{FieldRead, Refusal};
use job::Request;

pub(crate) fn rollback_read(s: &[u8], at: usize) -> Result<FieldRead, Refusal>
    ensures { Says (rollback_read s.now (stands_at at)) 65535 result }
{
    let a = field(s, at, 2, 1, 65535, RANGE)?;
    rule(a, rollback_ok(a.value), RANGE, a.place)
}

fn requested_resource(s: &[u8], resources: usize, at: usize) -> Result<FieldRead, Refusal>
    ensures { Says (requested_resource s.now resources (stands_at at)) 255 result }
{
    let a = field(s, at, 1, 0, 255, RANGE)?;
    rule(a, request_ok(a.value, resources), RANGE, a.place)
}

fn requested_rollback(s: &[u8], resource: usize, at: usize) -> Result<FieldRead, Refusal>
    ensures { Says (requested_rollback s.now resource (stands_at at)) 65535 result }
{
    let low = if_requested(resource, 1);
    let high = if_requested(resource, 65535);
    let a = field(s, at, 2, low, high, RANGE)?;
    rule(a, rollback_ok(a.value), RANGE, a.place)
}

// The request, and the last of its fields.
pub(crate) fn request_read(
    s: &[u8],
    resources: usize,
    run: usize,
    at: usize,
) -> Result<(Request, FieldRead), Refusal>
    requires { run ≤ 65535 }
    ensures { RequestRead s.now resources run at result }
{
    let resource = requested_resource(s, resources, at)?;
    let low = if_requested(resource.value, 1);
    let high = if_requested(resource.value, run);
    let hold = field(s, resource.next, 2, low, high, RANGE)?;
    let rollback = requested_rollback(s, resource.value, hold.next)?;
    let request = Request {
        resource: resource.value as u8,
        hold: hold.value as u16,
        rollback: rollback.value as u16,
    };
    Ok((request, rollback))
}
