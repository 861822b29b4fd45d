// The lent book and the reader's place together, for a caller that reads field by field (01, "Forms for specific places").
// Its functions are thin: what is decided, `field` decides.
ghost use Rattle.std.specs.Prelude.{◌≡◌};
ghost use Rattle.cursor.specs.Answer.{field_at};
ghost use Rattle.cursor.specs.Step.{place_after};

use crate::field::field;
use crate::{FieldRead, Refusal};

#[derive(Clone, Copy)]
pub struct BookReader<'a> {
    pub book: &'a [u8],
    pub place: usize,
}

// A field or its refusal, and the reader after it: at the byte after the field, and after a refusal where it stood.
#[derive(Clone, Copy)]
pub struct NextField<'a> {
    pub field: Result<FieldRead, Refusal>,
    pub rest: BookReader<'a>,
}

pub fn open_reader<'a>(book: &'a [u8]) -> BookReader<'a>
    ensures { (result.book ≡ book.entry) × (result.place ≡ 0) }
{
    BookReader { book, place: 0 }
}

pub fn next_field<'a>(
    r: BookReader<'a>,
    n: usize,
    low: usize,
    high: usize,
    number: u8,
) -> NextField<'a>
    ensures { (result.field ≡ field_at r.entry.book.now r.entry.place n low high number) × (result.rest.book ≡ r.entry.book) × (result.rest.place ≡ place_after r.entry.place result.field) }
{
    let book = r.book;
    let from = place_of(r);
    let field = field(book, from, n, low, high, number);
    let place = match field {
        Ok(f) => f.next,
        Err(_) => from,
    };
    NextField {
        field,
        rest: BookReader { book, place },
    }
}

pub fn place_of<'a>(r: BookReader<'a>) -> usize
    ensures { result ≡ r.entry.place }
{
    r.place
}
