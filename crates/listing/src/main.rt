// The listing program: reads one book from standard input and writes its listing to standard output (01, "The answer"); with the word
// `--first` as its one argument, the text of the plan's first part (02, R-2). Both are proved text.
#![tactic(auto)]

ghost use Rattle.std.specs.Prelude.{◌≡◌, ◌≤◌, length, cond};
ghost use Rattle.text.specs.Listing.{listing_outcome};
ghost use Rattle.text.specs.First.{first_outcome};

use input::read_full;
use std::env::FillError;
use std::io;
use std::io::{Input, Print};
use std::rt::Env;

// How many bytes of standard input are read at most; a book has at most 65,535.
const MOST: usize = 65536;

// The text that is asked for, and how many bytes it has.
fn write_text(first: bool, book: &[u8], out: &mut [u8]) -> usize
    ensures value { (result ≡ (cond first (first_outcome book.now out.old) (listing_outcome book.now out.old)).listed.length) × (out.new ≡ (cond first (first_outcome book.now out.old) (listing_outcome book.now out.old)).out) }
    ensures within { result ≤ length out.new }
{
    if first {
        text::first::write_first(book, out).unwrap_or(0)
    } else {
        text::listing::write_listing(book, out).unwrap_or(0)
    }
}

fn print_text(rt: &(impl Input + Print), first: bool) -> io::Result<()> {
    let mut book = [0u8; MOST];
    let n = read_full(&mut rt.reader(), &mut book)?;
    let mut out = [0u8; 4096];
    let length = write_text(first, &book[..n], &mut out);
    rt.write_all(&out[..length])
}

// Argument 0 is the program's name.
fn has_argument(rt: &impl Env, i: usize) -> bool {
    !matches!(rt.arg(i, &mut []), Err(FillError::NotPresent))
}

// A word that does not fit is no `--first`.
fn asks_first(rt: &impl Env) -> bool {
    let mut word = [0u8; 8];
    match rt.arg(1, &mut word) {
        Ok(n) => &word[..n] == b"--first".as_slice() && !has_argument(rt, 2),
        Err(_) => false,
    }
}

// The exit status is 0 here too, so this line is all that tells of a wrong argument.
fn print_usage(rt: &impl Eprint) -> io::Result<()> {
    eprintln!(rt; "usage: listing [--first] < BOOK")
}

fn main(rt: HostRuntime) -> io::Result<()> {
    if !has_argument(&rt, 1) {
        print_text(&rt, false)
    } else if asks_first(&rt) {
        print_text(&rt, true)
    } else {
        print_usage(&rt)
    }
}
