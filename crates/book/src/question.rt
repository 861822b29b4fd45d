// The record question: one job's record as a part of the lent book (01, "Forms for specific places").
ghost use Rattle.std.specs.Prelude.{◌≡◌, ◌≤◌, length};
ghost use Rattle.book.specs.Question.{found_answer, part_between, IsRecord, Answers};

use crate::Span;
use crate::judge::judge_into;
use cursor::Refusal;

// number and place: the refusal's, or 0 and 0. part: the record, and empty where there is none.
// Numbers, since 01 asks for the part "in an answer with refusal and place beside it"; `find_record` has them as a Result.
#[derive(Clone, Copy)]
pub struct RecordAnswer<'a> {
    pub number: u8,
    pub place: usize,
    pub part: &'a [u8],
}

// Where the record of a job stands in the book, if there is one.
pub fn find_record(s: &[u8], job: usize) -> Result<Option<Span>, Refusal>
    ensures { result ≡ found_answer s.now job }
{
    let mut holders = [255u8; 32];
    let mut starts = [0usize; 33];
    let head = judge_into(s, &mut holders, &mut starts)?;
    if head.jobs <= job {
        return Ok(None);
    }
    Ok(Some(Span {
        start: starts[job],
        end: starts[job + 1],
    }))
}

fn part<'a>(s: &'a [u8], start: usize, end: usize) -> &'a [u8]
    requires { (start ≤ end) × (end ≤ length s.now) }
    ensures { result ≡ part_between s.entry start end }
{
    &s[start..end]
}

// One job's record as a part of the book, with the refusal beside it.
pub fn record<'a>(s: &'a [u8], job: usize) -> RecordAnswer<'a>
    ensures { Answers s.entry job result }
{
    match find_record(s, job) {
        Ok(Some(span)) => RecordAnswer {
            number: 0,
            place: 0,
            part: part(s, span.start, span.end),
        },
        Ok(None) => RecordAnswer {
            number: 0,
            place: 0,
            part: part(s, 0, 0),
        },
        Err(refusal) => RecordAnswer {
            number: refusal.number,
            place: refusal.place,
            part: part(s, 0, 0),
        },
    }
}

// The record alone, for callers that ask for no refusal.
pub fn record_part<'a>(s: &'a [u8], job: usize) -> &'a [u8]
    ensures { IsRecord s.entry job result }
{
    let answer = record(s, job);
    answer.part
}
