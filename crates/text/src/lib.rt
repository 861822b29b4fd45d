// The listing of a book as text, and the text of its plan's first part, each in a lent output.
#![tactic(auto)]

mod word; // words and numbers
mod line; // the listing's lines
pub mod listing; // the whole listing, or a refused book's line
pub mod first; // the first part's line, `nothing`, or a refused book's line
