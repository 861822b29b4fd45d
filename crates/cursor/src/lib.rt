// The cursor on a lent book: its fields one after the other, or the first refusal met, with a number and a place, and the header read so (01, "The job book", "What a refusal says").
#![tactic(auto)]

ghost use Rattle.std.specs.Prelude.{◌≡◌};

pub mod field; // field.rt: one field, and one further rule
pub mod reader; // reader.rt: the book and the reader's place together
pub mod head; // head.rt: the book's header

// A field that was read: its first byte, the byte after it, its value.
#[derive(Clone, Copy, Debug, PartialEq, Eq)]
pub struct FieldRead {
    pub place: usize,
    pub next: usize,
    pub value: usize,
}

// Why bytes are refused. A number and no enum: `field` and `next_field` take any number that a caller's rule has, and the number itself goes out to C and into the listing.
#[derive(Clone, Copy, Debug, PartialEq, Eq)]
pub struct Refusal {
    pub number: u8,
    pub place: usize,
}

impl Refusal {
    // What is lent has too little room.
    pub const NO_ROOM: Refusal = Refusal {
        number: field::ROOM,
        place: 0,
    };
}

// A header that is refused, with what was read before: each count is 0 where the refusal came before it.
#[derive(Clone, Copy)]
pub struct HeaderRefused {
    pub refusal: Refusal,
    pub jobs: usize,
    pub resources: usize,
}

impl From<HeaderRefused> for Refusal {
    ghost from_gives = { λ h d. d ≡ h.refusal };

    fn from(header: HeaderRefused) -> Refusal {
        header.refusal
    }
}

// last: the last field that was read, now.
#[derive(Clone, Copy, Debug, PartialEq, Eq)]
pub struct Header {
    pub jobs: usize,
    pub resources: usize,
    pub now: usize,
    pub last: FieldRead,
}
