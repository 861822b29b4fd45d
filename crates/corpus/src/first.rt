// The lines of the first part: by value, in the number that C gets, and as text.
use crate::print::{Fields, Refused};
use std::io;
use std::io::Write;

pub(crate) fn first_line(out: &mut impl Write, index: usize, book: &[u8]) -> io::Result<()> {
    write!(out, "{index} first ")?;
    match planner::first::first_part(book) {
        Ok(Some(part)) => writeln!(out, "{}", Fields(part)),
        Ok(None) => writeln!(out, "nothing"),
        Err(refusal) => writeln!(out, "{}", Refused(refusal)),
    }
}

// So that this number is compared too where the archive can't be linked.
pub(crate) fn word_line(out: &mut impl Write, index: usize, book: &[u8]) -> io::Result<()> {
    let word = ilhuepatl::calls::ilhuepatl_first(book);
    writeln!(out, "{index} word {word}")
}

pub(crate) fn first_text(out: &mut impl Write, book: &[u8]) -> io::Result<()> {
    let mut space = [0u8; 32];
    let length = text::first::write_first(book, &mut space).unwrap_or(0);
    out.write_all(space.get(..length).unwrap_or(b""))
}
