// The line of the record question.
use crate::print::{Hex, Refused};
use std::io;
use std::io::Write;

// The record's bytes; none is empty.
fn record(out: &mut impl Write, part: &[u8]) -> io::Result<()> {
    if part.is_empty() {
        return writeln!(out, " none");
    }
    let bytes = Hex(part);
    writeln!(out, " {bytes}")
}

pub(crate) fn record_line(out: &mut impl Write, index: usize, bytes: &[u8]) -> io::Result<()> {
    let job = index % 5;
    write!(out, "{index} record {job}")?;
    match book::question::find_record(bytes, job) {
        Ok(_) => record(out, book::question::record_part(bytes, job)),
        Err(refusal) => writeln!(out, " {}", Refused(refusal)),
    }
}
