// What finishing a job at a moment is worth (01, "Worth and wait circles"), and which of two groups is worth more for its time.
#![tactic(auto)]

ghost use Rattle.std.specs.Prelude.{◌≡◌, pos, ◌*ℤ◌};
ghost use Rattle.curve.specs.Worth.{line_at};
ghost use Rattle.curve.specs.Density.{denser_than};

pub mod fields; // fields.rt: a piece from its fields
pub mod question; // question.rt: the worth of a curve where it stands

#[derive(Clone, Copy)]
pub struct Piece {
    pub start: u32,
    pub value: i32,
    pub slope: i16,
}

// Any 32 bits by any 32 bits fit 64.
fn times(amount: i32, time: u32) -> i64
    ensures { result ≡ amount *ℤ pos time }
{
    i64::from(amount) * i64::from(time)
}

// The line of a piece at t; before its start, its first value.
pub fn line_at(p: Piece, t: u32) -> i64
    ensures { result ≡ line_at p t }
{
    i64::from(p.value) + times(i32::from(p.slope), t.saturating_sub(p.start))
}

// Whether gain / time is more than othergain / othertime; nothing is divided, so nothing is rounded.
pub fn denser(gain: i32, time: u32, othergain: i32, othertime: u32) -> bool
    ensures { result ≡ denser_than gain time othergain othertime }
{
    times(othergain, time) < times(gain, othertime)
}
