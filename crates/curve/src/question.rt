// The worth of a curve where it stands (02, R-4): nothing is laid out, and the pieces are read from the last back, up to the one that
// serves. `None` is outside the curve, and not a worth of 0 (R-7).
ghost use Rattle.std.specs.Prelude.{◌≡◌, length};
ghost use Rattle.curve.specs.Layout.{piece_at};
ghost use Rattle.curve.specs.Question.{worth_from};
ghost use Rattle.curve.specs.Before.{worth_back, worth_before};

use crate::fields::piece_from;
use crate::{Piece, line_at};

fn piece_of(bytes: &[u8; 10]) -> Piece
    ensures { result ≡ piece_at bytes.now 0 }
{
    let start = u32::from_be_bytes([bytes[0], bytes[1], bytes[2], bytes[3]]);
    let value = u32::from_be_bytes([bytes[4], bytes[5], bytes[6], bytes[7]]);
    let slope = u16::from_be_bytes([bytes[8], bytes[9]]);
    piece_from(start, value, slope)
}

// By the pieces that stand before a curve's termination.
fn worth_back(mut before: &[u8], pieces: usize, t: u32) -> Option<i64>
    ensures { result ≡ worth_back before.now (length before.now) t pieces }
{
    for _ in 0..pieces {
        let (rest, bytes) = before.split_last_chunk()?;
        let piece = piece_of(bytes);
        if piece.start <= t {
            return Some(line_at(piece, t));
        }
        before = rest;
    }
    None
}

// Of any bytes, at any place; none where no curve stands.
pub fn worth_at(s: &[u8], place: usize, t: u32) -> Option<i64>
    ensures { result ≡ worth_from s.now place t }
{
    let pieces = usize::from(*s.get(place)?);
    if 8 < pieces {
        return None;
    }
    worth_before(s, place + 1 + 10 * pieces, pieces, t)
}

// Of the curve whose termination stands at `end`, with so many pieces before it: for a caller that knows both, so that nothing is read
// twice.
pub fn worth_before(s: &[u8], end: usize, pieces: usize, t: u32) -> Option<i64>
    ensures { result ≡ worth_before s.now end pieces t }
{
    let (before, after) = s.split_at_checked(end)?;
    let until = u32::from_be_bytes(*after.first_chunk()?);
    if until < t {
        return None;
    }
    worth_back(before, pieces, t)
}
