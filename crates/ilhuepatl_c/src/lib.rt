// What C links: each call of `ilhuepatl` that C has, under its own name and promise, in a static library (include/ilhuepatl.h).
#![tactic(auto)]

ghost use Rattle.std.specs.Prelude.{◌≡◌};
ghost use Rattle.book.specs.Question.{found_in};
ghost use Rattle.book.specs.CurveWorth.{curve_worth};
ghost use Rattle.planner.specs.Planned.{planned_of};
ghost use Rattle.planner.specs.First.{first_in};
ghost use Rattle.ilhuepatl.specs.Calls.{outcome_of, word, record_word, first_word, word_of_worth};

use ilhuepatl::calls;

// 0, or the refusal's number and, in the lower 32 bits, its place.
#[unsafe(no_mangle)]
pub extern "C" fn ilhuepatl_plan(book: &[u8], out: &mut [u8]) -> u64
    ensures { (result ≡ word (outcome_of book.now out.old).verdict) × (out.new ≡ (outcome_of book.now out.old).out) }
{
    calls::ilhuepatl_plan(book, out)
}

// A refusal as above, or start and end of the record, 16 bits each; 0 where there is none.
#[unsafe(no_mangle)]
pub extern "C" fn ilhuepatl_record(bytes: &[u8], job: usize) -> u64
    ensures { result ≡ record_word (found_in bytes.now job) }
{
    calls::ilhuepatl_record(bytes, job)
}

// A refusal as above, never ROOM; 0 where there is no part; else job, mode and time.
#[unsafe(no_mangle)]
pub extern "C" fn ilhuepatl_first(book: &[u8]) -> u64
    ensures { result ≡ first_word (first_in (planned_of book.now)) }
{
    calls::ilhuepatl_first(book)
}

// A refusal as above, CUT, RANGE or TAIL; else the worth, or none.
#[unsafe(no_mangle)]
pub extern "C" fn ilhuepatl_worth(curve: &[u8], t: u32) -> u64
    ensures { result ≡ word_of_worth (curve_worth curve.now t) }
{
    calls::ilhuepatl_worth(curve, t)
}
