// The job book's reader: any string of bytes gives where the book's records stand, or a refusal with a number and a place (01, "The job book", "What a refusal says").
#![tactic(auto)]

ghost use Rattle.std.specs.Prelude.{◌≡◌};

use job::{Held, Request};

// The bytes and the place where a reader begins are two parameters and no struct: each call has another place, and 01 asks for a by-value reader.

pub mod rules; // rules.rt: the rules that are more than a range
pub mod request; // request.rt: rollback times and the request
pub mod held; // held.rt: the held list
pub mod pieces; // pieces.rt: the curve
pub mod reader; // reader.rt: a job's record, and the end of the book
pub mod judge; // judge.rt: the whole book
pub mod question; // question.rt: one job's record as a part of the book
pub mod worth; // worth.rt: the bytes of one curve, asked for their worth

// One line of a held list.
#[derive(Clone, Copy, Debug, PartialEq, Eq)]
pub struct Entry {
    pub resource: u8,
    pub hold: u16,
    pub rollback: u16,
}

impl From<Entry> for Held {
    ghost from_gives = { λ e h. h ≡ record { hold = e.hold; rollback = e.rollback } };

    fn from(e: Entry) -> Held {
        Held {
            hold: e.hold,
            rollback: e.rollback,
        }
    }
}

// A request stands in the book as an entry does.
impl From<Entry> for Request {
    ghost from_gives = { λ e r. r ≡ record { resource = e.resource; hold = e.hold; rollback = e.rollback } };

    fn from(asked: Entry) -> Request {
        Request {
            resource: asked.resource,
            hold: asked.hold,
            rollback: asked.rollback,
        }
    }
}

// The bytes of a record: from start up to end.
#[derive(Clone, Copy, Debug, PartialEq, Eq)]
pub struct Span {
    pub start: usize,
    pub end: usize,
}

// What a judged book has but for its records, and where these stand. starts: the first byte of each record, and after the last of
// them the byte after it; 0 in the places after that. holders: by resource, 255 where nobody holds it.
#[derive(Clone, Copy)]
pub struct Judged {
    pub now: u32,
    pub jobs: usize,
    pub holders: [u8; 32],
    pub starts: [usize; 33],
}
