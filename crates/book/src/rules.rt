// The rules that are more than a range of one field: each is named in 01, and specs/Rules.antt cites its sentence.
ghost use Rattle.std.specs.Prelude.{◌≡◌, ◌≤◌};
ghost use Rattle.book.specs.Rules.{rollback_ok, request_ok, if_requested, least_rollback, mode_ok, around_ok, line_ok};

use curve::Piece;

const NEVER: usize = job::NEVER as usize;

const NONE: usize = 255;

pub(crate) fn rollback_ok(v: usize) -> bool
    ensures { result ≡ rollback_ok v }
{
    v <= 30000 || v == NEVER
}

pub(crate) fn request_ok(resource: usize, resources: usize) -> bool
    ensures { result ≡ request_ok resource resources }
{
    resource == NONE || resource < resources
}

pub(crate) fn if_requested(resource: usize, bound: usize) -> usize
    ensures { (result ≡ if_requested resource bound) × (result ≤ bound) }
{
    if resource == NONE { 0 } else { bound }
}

pub(crate) fn least_rollback(rollback: usize) -> usize
    ensures { result ≡ least_rollback rollback }
{
    if rollback == NEVER { NEVER } else { 1 }
}

pub(crate) fn mode_ok(mode: usize, rollback: usize, resource: u8) -> bool
    ensures { result ≡ mode_ok mode rollback resource }
{
    mode == 0 || rollback != NEVER && resource == 255
}

// v in two's complement, 0 to high, is at most `most` away from 0.
pub(crate) fn around_ok(v: usize, most: usize, high: usize) -> bool
    ensures { result ≡ around_ok v most high }
{
    v <= most || high.saturating_sub(v) < most
}

pub(crate) fn line_ok(p: Piece, t: u32) -> bool
    ensures { result ≡ line_ok p t }
{
    curve::line_at(p, t).unsigned_abs() <= 1_000_000
}
