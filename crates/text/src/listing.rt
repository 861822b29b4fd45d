// The listing of a book in a lent output (01, "The answer").
ghost use Rattle.std.specs.Prelude.{◌≡◌, ◌≤◌, length};
ghost use Rattle.planner.specs.Told.{planned_book};
ghost use Rattle.text.specs.Listed.{listed_told};
ghost use Rattle.text.specs.Listing.{plan_text, listing_outcome};
ghost use Rattle.text.specs.Wrote.{Wrote};
ghost use Rattle.text.specs.Texts.{Moment};

use crate::line::put_refused;
use crate::word::Writer;
use cursor::Refusal;
use cursor::head::header;
use planner::BookPlan;
use planner::plan::plan;

// The moment at which the first part starts; 0 where the header is refused.
pub(crate) fn moment_of(s: &[u8]) -> u64
    ensures { Moment s.now result }
{
    match header(s) {
        Ok(h) => h.now as u64,
        Err(_) => 0,
    }
}

#[tactic(auto, using(crate::proofs::Writer::steps), unfolding(crate::specs::Writer::after, crate::specs::Listing::plan_text))]
fn put_plan(out: &mut [u8], p: &BookPlan, first: u64) -> usize
    requires { (p.now.victimcount ≤ 32) × (p.now.count ≤ 96) × (first ≤ 4294967295) × (length (plan_text (planned_book p.now) first) ≤ length out.old) }
    ensures { Wrote out.old 0 (plan_text (planned_book p.now) first) out.new result }
{
    let mut text = Writer::new(out);
    text.victims(&p.victims[..p.victimcount]);
    text.parts(&p.parts[..p.count], first);
    text.close(p.total, p.end, p.rounds);
    text.at
}

// The text at the start of out, and later bytes as they were; how long it is. A refused book is no refusal of this call: its line is the text.
// ROOM is one, and then nothing is written.
pub fn write_listing(book: &[u8], out: &mut [u8]) -> Result<usize, Refusal>
    ensures { (result ≡ listed_told (listing_outcome book.now out.old).listed) × (out.new ≡ (listing_outcome book.now out.old).out) }
{
    if out.len() < 4096 {
        return Err(Refusal::NO_ROOM);
    }
    match plan(book) {
        Ok(p) => Ok(put_plan(out, &p, moment_of(book))),
        Err(refusal) => Ok(put_refused(out, refusal)),
    }
}
