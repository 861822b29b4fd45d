// The plan in a lent row of part records (01, "The answer": the second call).
ghost use Rattle.std.specs.Prelude.{◌≡◌, replicate};
ghost use Rattle.planner.specs.LaidOut.{empty_part};
ghost use Rattle.ilhuepatl.specs.Rows.{row_told, row_outcome_of};

use cursor::Refusal;
use gus::Part;
use planner::plan::plan;

// The answer's fields beside its parts. The victims stand with their count since nothing allocates, and the parts' count since the lent row has no end of its own.
#[derive(Clone, Copy)]
pub struct RowAnswer {
    pub victims: [u8; 32],
    pub victimcount: usize,
    pub count: usize,
    pub rounds: usize,
    pub total: i32,
    pub end: u32,
}

// The answer, and a row of its own.
#[derive(Clone, Copy)]
pub struct RowLaid {
    pub answer: Result<RowAnswer, Refusal>,
    pub parts: [Part; 96],
}

// The parts at the start of row, and later records as they were; or a refusal, and nothing written.
pub fn plan_row(book: &[u8], row: &mut [Part]) -> Result<RowAnswer, Refusal>
    ensures { (result ≡ row_told (row_outcome_of book.now row.old).answer) × (row.new ≡ (row_outcome_of book.now row.old).row) }
{
    if row.len() < 96 {
        return Err(Refusal::NO_ROOM);
    }
    let p = plan(book)?;
    row[..p.count].copy_from_slice(&p.parts[..p.count]);
    let victims = p.victims;
    Ok(RowAnswer {
        victims,
        victimcount: p.victimcount,
        count: p.count,
        rounds: p.rounds,
        total: p.total,
        end: p.end,
    })
}

// plan_row on a row of its own, 96 empty parts, handed back by value: for callers that lend none.
pub fn plan_parts(book: &[u8]) -> RowLaid
    ensures { (result.answer ≡ row_told (row_outcome_of book.now (replicate 96 empty_part)).answer) × (result.parts ≡ (row_outcome_of book.now (replicate 96 empty_part)).row) }
{
    let mut parts = [Part::EMPTY; 96];
    let answer = plan_row(book, &mut parts);
    RowLaid { answer, parts }
}
