// The never mark. A sum of times stops at it (`saturating_add`) as a difference stops at 0 (`saturating_sub`); in an accepted book no sum
// meets it: two rollbacks that are not never are 60,000 at most (`in-range-below`).
ghost use Rattle.std.specs.Prelude.{◌≡◌};
ghost use Rattle.job.specs.Times.{either_never, or_never};

use crate::NEVER;

pub(crate) fn either_never(a: u16, b: u16) -> bool
    ensures { result ≡ either_never a b }
{
    a == NEVER || b == NEVER
}

pub(crate) fn or_never(never: bool, time: u16) -> u16
    ensures { result ≡ or_never never time }
{
    if never { NEVER } else { time }
}
