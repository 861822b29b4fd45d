// The line of the call that fills a row of part records.
use crate::print::{Fields, Refused};
use gus::Part;
use ilhuepatl::row::RowAnswer;
use std::io;
use std::io::Write;

fn victims(out: &mut impl Write, a: &RowAnswer) -> io::Result<()> {
    write!(out, " victims")?;
    for job in a.victims.iter().take(a.victimcount) {
        write!(out, " {job}")?;
    }
    Ok(())
}

fn parts(out: &mut impl Write, row: &[Part], count: usize) -> io::Result<()> {
    write!(out, " parts")?;
    for p in row.iter().take(count) {
        let fields = Fields(*p);
        write!(out, " {fields}")?;
    }
    Ok(())
}

pub(crate) fn row_line(out: &mut impl Write, index: usize, book: &[u8]) -> io::Result<()> {
    let laid = ilhuepatl::row::plan_parts(book);
    write!(out, "{index} row")?;
    let a = match laid.answer {
        Ok(answer) => answer,
        Err(refusal) => return writeln!(out, " {}", Refused(refusal)),
    };
    victims(out, &a)?;
    parts(out, &laid.parts, a.count)?;
    writeln!(out, " rounds {} total {} end {}", a.rounds, a.total, a.end)
}
