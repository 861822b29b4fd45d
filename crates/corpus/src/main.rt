// The proved planner on a file of books: what each public call says of each book, held to what the second planner says of it.
// In the file `books` each book stands behind its byte count (2 bytes), so that damaged books can stand there too.
#![tactic(auto)]

ghost use Rattle.std.specs.Prelude.{length};
ghost use Rattle.std.specs.Iterator.{at_most};

mod answer;
mod first;
mod listing;
mod print;
mod record;
mod row;
mod worth;

use input::read_full;
use std::fs::File;
use std::io;
use std::io::Write;

// How many bytes of the file are read at most.
const MOST: usize = 65536;

// The record question is asked for job 0, 1, 2, 3, 4, 0 and so on.
fn book_lines(out: &mut impl Write, index: usize, bytes: &[u8]) -> io::Result<()> {
    answer::answer_line(out, index, bytes)?;
    row::row_line(out, index, bytes)?;
    record::record_line(out, index, bytes)?;
    first::first_line(out, index, bytes)?;
    first::word_line(out, index, bytes)?;
    worth::worth_line(out, index, bytes)?;
    listing::listing_lines(out, bytes)?;
    first::first_text(out, bytes)
}

// The books behind one another; one that is cut is none.
#[derive(Clone, Copy)]
struct Books<'a>(&'a [u8]);

impl<'a> Iterator for Books<'a> {
    type Item = &'a [u8];

    ghost remaining = { λ s. at_most (length s.0.now) };

    fn next(&mut self) -> Option<&'a [u8]> {
        let (size, rest) = self.0.split_first_chunk::<2>()?;
        let size = u16::from_be_bytes(*size);
        let (book, later) = rest.split_at_checked(usize::from(size))?;
        self.0 = later;
        Some(book)
    }
}

fn lines(out: &mut impl Write, all: &[u8]) -> io::Result<()> {
    for (index, book) in Books(all).enumerate() {
        book_lines(out, index, book)?;
    }
    Ok(())
}

fn main(rt: HostRuntime) -> io::Result<()> {
    let mut books = [0u8; MOST];
    let n = read_full(&mut File::open(&rt, "books")?, &mut books)?;
    lines(&mut io::writer(&rt), &books[..n])
}
