// The line of the worth call: a part of the book, asked about at five moments, in the numbers that C gets.
use book::Span;
use cursor::field::value_at;
use std::io;
use std::io::Write;

// 0 where the bytes end before.
fn moment(curve: &[u8], place: usize) -> u32 {
    u32::try_from(value_at(curve, place, 4)).unwrap_or(u32::MAX)
}

// The first start stands after the piece count, and a curve ends with its termination. For a later moment than there is stands the last one.
fn words(out: &mut impl Write, curve: &[u8]) -> io::Result<()> {
    let first = moment(curve, 1);
    let last = moment(curve, curve.len().saturating_sub(4));
    let halfway = first.midpoint(last);
    for t in [
        first.saturating_sub(1),
        first,
        halfway,
        last,
        last.saturating_add(1),
    ] {
        let word = ilhuepatl::calls::ilhuepatl_worth(curve, t);
        write!(out, " {word}")?;
    }
    writeln!(out)
}

// Where the curve begins in the record at start: after the held count and 5 bytes for each hold.
fn curve_place(bytes: &[u8], start: usize) -> usize {
    let holds = value_at(bytes, start.saturating_add(10), 1);
    start.saturating_add(11 + 5 * holds)
}

// One third each: the whole curve, all but its last byte, and the curve with all that stands after it.
fn curve_of(index: usize, bytes: &[u8], record: Span) -> &[u8] {
    let first = curve_place(bytes, record.start);
    let last = match index % 3 {
        0 => record.end,
        1 => record.end.saturating_sub(1),
        _ => bytes.len(),
    };
    bytes.get(first..last).unwrap_or(b"")
}

// The curve of the job whose record the book's record line has. A book without that record is itself taken for a curve, from some byte on.
pub(crate) fn worth_line(out: &mut impl Write, index: usize, bytes: &[u8]) -> io::Result<()> {
    write!(out, "{index} worth")?;
    match book::question::find_record(bytes, index % 5) {
        Ok(Some(span)) => words(out, curve_of(index, bytes, span)),
        _ => words(out, bytes.get(index % 16..).unwrap_or(b"")),
    }
}
