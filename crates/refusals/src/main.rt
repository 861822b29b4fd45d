// What the reader says of a table of books: 01's twelve cases, and a book for each way in which a book is refused.
// The table is the file `books`, to be read beside 01; the file stdout was written from 01.
#![tactic(auto)]

ghost use Rattle.std.specs.Prelude.{◌<◌, ◌≤◌, length, IfSome};

use book::judge::judge;
use book::question::{find_record, record_part};
use cursor::Refusal;
use input::read_full;
use std::fs::File;
use std::io::Write;
use std::{fmt, io};

// How many bytes of the table are read at most.
const MOST: usize = 65536;

#[derive(Clone, Copy)]
struct Refused(Refusal);

impl fmt::Display for Refused {
    fn fmt<W: fmt::Write>(&self, f: &mut fmt::Formatter<W>) -> fmt::Result {
        write!(f, "refused {} at {}", self.0.number, self.0.place)
    }
}

fn read(out: &mut impl Write, book: &[u8]) -> io::Result<()> {
    match judge(book) {
        Ok(judged) => write!(out, "accepted {} jobs", judged.jobs),
        Err(refusal) => write!(out, "{}", Refused(refusal)),
    }
}

fn ask(out: &mut impl Write, book: &[u8], job: usize) -> io::Result<()> {
    if let Err(refusal) = find_record(book, job) {
        return write!(out, "{}", Refused(refusal));
    }
    let part = record_part(book, job);
    if part.is_empty() {
        write!(out, "none")?;
    }
    for byte in part {
        write!(out, "{byte:02x}")?;
    }
    Ok(())
}

// to_digit(16) would take the small letters of the table's words for digits too.
fn digit(c: u8) -> Option<u8>
    ensures { IfSome result (λ d. d < 16) }
{
    match c {
        b'0'..=b'9' => Some(c - b'0'),
        b'A'..=b'F' => Some(c - b'A' + 10),
        _ => None,
    }
}

// Two digits a byte; what is no digit only parts the fields for the eye.
fn bytes_of<'a>(line: &[u8], room: &'a mut [u8; 128]) -> &'a [u8]
    ensures { length result.now ≤ 128 }
{
    let mut digits = line.iter().filter_map(|c| digit(*c));
    for (size, byte) in room.iter_mut().enumerate() {
        let (Some(high), Some(low)) = (digits.next(), digits.next()) else {
            return &room[..size];
        };
        *byte = high * 16 + low;
    }
    room
}

// Behind an @ the first byte is the job that the record question asks for.
fn answer(out: &mut impl Write, bytes: &[u8], asked: bool) -> io::Result<()> {
    if !asked {
        return read(out, bytes);
    }
    match bytes.split_first() {
        Some((job, book)) => ask(out, book, usize::from(*job)),
        None => Ok(()),
    }
}

// A line without a colon is a heading.
fn row(out: &mut impl Write, line: &[u8]) -> io::Result<()> {
    let Some(colon) = line.iter().position(|c| *c == b':') else {
        return Ok(());
    };
    let (name, digits) = line.split_at(colon);
    out.write_all(name)?;
    write!(out, ": ")?;
    let mut room = [0u8; 128];
    answer(out, bytes_of(digits, &mut room), line.contains(&b'@'))?;
    writeln!(out)
}

// What stands behind the last line break is no line.
fn rows(out: &mut impl Write, all: &[u8]) -> io::Result<()> {
    for line in all.split_inclusive(|c| *c == b'\n') {
        if let Some(line) = line.strip_suffix(b"\n") {
            row(out, line)?;
        }
    }
    Ok(())
}

fn main(rt: HostRuntime) -> io::Result<()> {
    let mut books = [0u8; MOST];
    let n = read_full(&mut File::open(&rt, "books")?, &mut books)?;
    rows(&mut io::writer(&rt), &books[..n])
}
