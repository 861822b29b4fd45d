// What several lines print alike. `Refused` stands in the program `refusals` too: in a library its text would need a promise, and a program's has none.
use cursor::Refusal;
use gus::Part;
use std::fmt;

// Two digits a byte.
#[derive(Clone, Copy)]
pub(crate) struct Hex<'a>(pub(crate) &'a [u8]);

impl fmt::Display for Hex<'_> {
    fn fmt<W: fmt::Write>(&self, f: &mut fmt::Formatter<W>) -> fmt::Result {
        for byte in self.0 {
            write!(f, "{byte:02x}")?;
        }
        Ok(())
    }
}

// Job, mode and time, the mode as in the book.
#[derive(Clone, Copy)]
pub(crate) struct Fields(pub(crate) Part);

impl fmt::Display for Fields {
    fn fmt<W: fmt::Write>(&self, f: &mut fmt::Formatter<W>) -> fmt::Result {
        let mode = u8::from(self.0.rolling);
        write!(f, "{} {mode} {}", self.0.job, self.0.time)
    }
}

#[derive(Clone, Copy)]
pub(crate) struct Refused(pub(crate) Refusal);

impl fmt::Display for Refused {
    fn fmt<W: fmt::Write>(&self, f: &mut fmt::Formatter<W>) -> fmt::Result {
        write!(f, "refused {} at {}", self.0.number, self.0.place)
    }
}
