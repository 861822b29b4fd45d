// The public calls: the plan of a book as bytes in a lent output, and the calls that C links, which the crate ilhuepatl_c exports.
ghost use Rattle.std.specs.Prelude.{◌≡◌, ◌≤◌, nat_abs};
ghost use Rattle.curve.specs.Worth.{amount};
ghost use Rattle.book.specs.Question.{found_in};
ghost use Rattle.book.specs.CurveWorth.{curve_worth};
ghost use Rattle.planner.specs.Planned.{planned_of};
ghost use Rattle.planner.specs.First.{first_in};
ghost use Rattle.ilhuepatl.specs.Verdict.{verdict_told};
ghost use Rattle.ilhuepatl.specs.Calls.{verdict_of, outcome_of, word, record_word, first_word, worth_bits, word_of_worth};

use crate::answer::put_answer;
use crate::part::part_word;
use book::question::find_record;
use book::worth::worth_of_curve;
use cursor::Refusal;
use planner::first::first_part;
use planner::plan::plan;

const NO_WORTH: u64 = 2147483648;

// The answer's bytes at the start of out, and later bytes as they were; or a refusal, and nothing written.
pub fn plan_bytes(book: &[u8], out: &mut [u8]) -> Result<(), Refusal>
    ensures { (result ≡ verdict_told (outcome_of book.now out.old).verdict) × (out.new ≡ (outcome_of book.now out.old).out) }
{
    if out.len() < 430 {
        return Err(Refusal::NO_ROOM);
    }
    let p = plan(book)?;
    put_answer(&p, out);
    Ok(())
}

fn word_of(refusal: Refusal) -> u64
    ensures { result ≡ word (verdict_of refusal.number refusal.place) }
{
    u64::from(refusal.number) * 4294967296 + (refusal.place as u64) % 4294967296
}

// plan_bytes for C: 0, or the refusal's number and, in the lower 32 bits, its place.
pub fn ilhuepatl_plan(book: &[u8], out: &mut [u8]) -> u64
    ensures { (result ≡ word (outcome_of book.now out.old).verdict) × (out.new ≡ (outcome_of book.now out.old).out) }
{
    match plan_bytes(book, out) {
        Ok(()) => 0,
        Err(refusal) => word_of(refusal),
    }
}

// The record question for C: a refusal as above, or start and end of the record, 16 bits each; 0 where there is none.
pub fn ilhuepatl_record(bytes: &[u8], job: usize) -> u64
    ensures { result ≡ record_word (found_in bytes.now job) }
{
    match find_record(bytes, job) {
        Ok(Some(span)) => (span.start as u64) % 65536 * 65536 + (span.end as u64) % 65536,
        Ok(None) => 0,
        Err(refusal) => word_of(refusal),
    }
}

// The first part of the plan for C: a refusal as above, never ROOM; 0 where there is no part; else job, mode and time.
pub fn ilhuepatl_first(book: &[u8]) -> u64
    ensures { result ≡ first_word (first_in (planned_of book.now)) }
{
    match first_part(book) {
        Ok(Some(part)) => part_word(part),
        Ok(None) => 0,
        Err(refusal) => word_of(refusal),
    }
}

// A worth in 32 bits of two's complement, and 2 ^ 31, which is no worth's, for none.
fn worth_bits(worth: Option<i64>) -> u64
    requires { nat_abs (amount worth) ≤ 1_000_000 }
    ensures { result ≡ worth_bits worth }
{
    match worth {
        None => NO_WORTH,
        Some(n) => u64::from((n as i32).cast_unsigned()),
    }
}

// The worth of a curve for C: a refusal as above, CUT, RANGE or TAIL; else the worth, or none.
pub fn ilhuepatl_worth(curve: &[u8], t: u32) -> u64
    ensures { result ≡ word_of_worth (curve_worth curve.now t) }
{
    match worth_of_curve(curve, t) {
        Ok(worth) => worth_bits(worth),
        Err(refusal) => word_of(refusal),
    }
}
