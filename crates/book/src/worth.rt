// What the bytes of one curve are worth at a moment (02, R-4): from its piece count to its termination, and nothing after it.
ghost use Rattle.std.specs.Prelude.{◌≡◌};
ghost use Rattle.book.specs.CurveWorth.{curve_worth, worth_answer};

use crate::pieces::curve_judged;
use crate::reader::tail;
use cursor::Refusal;
use curve::question::worth_at;

pub fn worth_of_curve(s: &[u8], t: u32) -> Result<Option<i64>, Refusal>
    ensures { result ≡ worth_answer (curve_worth s.now t) }
{
    tail(s, curve_judged(s, 0)?)?;
    Ok(worth_at(s, 0, t))
}
