// The first part of a book's plan as text, in a lent output (02, R-2).
ghost use Rattle.std.specs.Prelude.{◌≡◌, ◌≤◌, length};
ghost use Rattle.planner.specs.Told.{first_book};
ghost use Rattle.text.specs.Listed.{listed_told};
ghost use Rattle.text.specs.First.{first_line, first_outcome};
ghost use Rattle.text.specs.Wrote.{Wrote};

use crate::line::put_refused;
use crate::listing::moment_of;
use crate::word::Writer;
use cursor::Refusal;
use gus::Part;
use planner::first::first_part;

// "the first part or nothing"
#[tactic(auto, using(crate::proofs::Writer::steps), unfolding(crate::specs::Writer::after, crate::specs::Decimal::ascii, crate::specs::First::first_line, crate::specs::First::nothing_line))]
fn put_first(out: &mut [u8], first: Option<Part>, start: u64) -> usize
    requires { length (first_line (first_book first).some (first_book first).part start) ≤ length out.old }
    ensures { Wrote out.old 0 (first_line (first_book first).some (first_book first).part start) out.new result }
{
    let mut text = Writer::new(out);
    match first {
        Some(part) => text.part(part, start),
        None => text.word(b"nothing\n"),
    }
    text.at
}

// The text at the start of out, and later bytes as they were; how long it is. A refused book is no refusal of this call: its line is the text.
// ROOM is one, and then nothing is written.
pub fn write_first(book: &[u8], out: &mut [u8]) -> Result<usize, Refusal>
    ensures { (result ≡ listed_told (first_outcome book.now out.old).listed) × (out.new ≡ (first_outcome book.now out.old).out) }
{
    if out.len() < 32 {
        return Err(Refusal::NO_ROOM);
    }
    match first_part(book) {
        Ok(first) => Ok(put_first(out, first, moment_of(book))),
        Err(refusal) => Ok(put_refused(out, refusal)),
    }
}
