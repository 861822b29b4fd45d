// The curve of a job, judged by its rules, and nothing kept of it but the last piece: a caller that wants its worth asks it where it stands.
ghost use Rattle.cursor.specs.Step.{stands_at};
ghost use Rattle.cursor.specs.Answer.{Says};
ghost use Rattle.book.specs.Format.{start_read, signed_read, end_read, curve_read};
ghost use Rattle.book.specs.Judging.{PieceJudged, PiecesJudged};

use crate::rules::{around_ok, line_ok};
use cursor::field::{RANGE, field, rule};
use cursor::{FieldRead, Refusal};
use curve::Piece;
use curve::fields::piece_from;

// It also ends the piece before it, 1 ms earlier.
fn start_read(s: &[u8], low: usize, last: Piece, at: usize) -> Result<FieldRead, Refusal>
    ensures { Says (start_read s.now low last (stands_at at)) 2147483647 result }
{
    let a = field(s, at, 4, low, 2147483647, RANGE)?;
    let end = a.value.saturating_sub(1);
    rule(a, line_ok(last, end as u32), RANGE, a.place)
}

// n bytes in two's complement, 0 to high, at most `most` away from 0
fn signed_read(
    s: &[u8],
    n: usize,
    most: usize,
    high: usize,
    at: usize,
) -> Result<FieldRead, Refusal>
    ensures { Says (signed_read s.now n most high (stands_at at)) high result }
{
    let a = field(s, at, n, 0, high, RANGE)?;
    rule(a, around_ok(a.value, most, high), RANGE, a.place)
}

// A piece, and the last of its fields.
fn piece_judged(s: &[u8], low: usize, last: Piece, at: usize) -> Result<(Piece, FieldRead), Refusal>
    ensures { PieceJudged s.now low last at result }
{
    let start = start_read(s, low, last, at)?;
    let value = signed_read(s, 4, 1000000, 4294967295, start.next)?;
    let slope = signed_read(s, 2, 1000, 65535, value.next)?;
    let piece = piece_from(start.value as u32, value.value as u32, slope.value as u16);
    Ok((piece, slope))
}

// The last piece, and the last of its fields.
fn pieces_judged(s: &[u8], at: usize) -> Result<(Piece, FieldRead), Refusal>
    ensures { PiecesJudged s.now at result }
{
    let count = field(s, at, 1, 1, 8, RANGE)?;
    let mut read = count;
    let mut last = Piece {
        start: 0,
        value: 0,
        slope: 0,
    };
    let mut low: usize = 0;
    for _ in 0..count.value {
        (last, read) = piece_judged(s, low, last, read.next)?;
        low = last.start as usize + 1;
    }
    Ok((last, read))
}

fn end_read(s: &[u8], last: Piece, at: usize) -> Result<FieldRead, Refusal>
    ensures { Says (end_read s.now last (stands_at at)) 2147483647 result }
{
    let a = field(s, at, 4, last.start as usize, 2147483647, RANGE)?;
    rule(a, line_ok(last, a.value as u32), RANGE, a.place)
}

pub(crate) fn curve_judged(s: &[u8], at: usize) -> Result<FieldRead, Refusal>
    ensures { Says (curve_read s.now (stands_at at)).reading 2147483647 result }
{
    let (last, read) = pieces_judged(s, at)?;
    end_read(s, last, read.next)
}
