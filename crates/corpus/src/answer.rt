// The line of the plan call into a lent output.
use crate::print::{Hex, Refused};
use std::io;
use std::io::Write;

// An answer begins with its length.
fn answer(space: &[u8]) -> &[u8] {
    let Some(field) = space.first_chunk::<2>() else {
        return b"";
    };
    let length = u16::from_be_bytes(*field);
    space.get(..usize::from(length)).unwrap_or(b"")
}

pub(crate) fn answer_line(out: &mut impl Write, index: usize, book: &[u8]) -> io::Result<()> {
    let mut space = [0u8; 430];
    match ilhuepatl::calls::plan_bytes(book, &mut space) {
        Ok(()) => writeln!(out, "{index} answer {}", Hex(answer(&space))),
        Err(refusal) => writeln!(out, "{index} {}", Refused(refusal)),
    }
}
