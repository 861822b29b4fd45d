// The answer in a lent output (01, "The answer"). What writes a run of it gets the output from there on.
ghost use Rattle.std.specs.Prelude.{◌≡◌, ◌∷◌, ◌++◌, ◌+◌, ◌≤◌, length};
ghost use Rattle.laws.specs.Stores.{over};
ghost use Rattle.planner.specs.Told.{planned_book};
ghost use Rattle.ilhuepatl.specs.Answer.{four, bits, answer_bytes};

use crate::part;
use planner::BookPlan;

// The victim count and the victims.
fn put_victims(out: &mut [u8], victims: &[u8])
    requires { (length victims.now ≤ 255) × (1 + length victims.now ≤ length out.old) }
    ensures { out.new ≡ over (length victims.now ∷ victims.now) out.old }
{
    out[0] = victims.len() as u8;
    out[1..=victims.len()].copy_from_slice(victims);
}

// Rounds, total and end.
fn put_close(out: &mut [u8], rounds: usize, total: i32, end: u32)
    requires { (rounds ≤ 255) × (9 ≤ length out.old) }
    ensures { out.new ≡ over (rounds ∷ four (bits total) ++ four end) out.old }
{
    out[0] = rounds as u8;
    out[1..5].copy_from_slice(&total.to_be_bytes());
    out[5..9].copy_from_slice(&end.to_be_bytes());
}

pub(crate) fn put_answer(p: &BookPlan, out: &mut [u8])
    requires { (p.now.victimcount ≤ 32) × (p.now.count ≤ 96) × (p.now.rounds ≤ 255) × (430 ≤ length out.old) }
    ensures { out.new ≡ over (answer_bytes (planned_book p.now)) out.old }
{
    let victims = &p.victims[..p.victimcount];
    let parts = &p.parts[..p.count];
    let after_victims = 4 + victims.len();
    let after_parts = after_victims + 1 + 4 * parts.len();
    let size = (after_parts + 9) as u16;
    out[..2].copy_from_slice(&size.to_be_bytes());
    out[2] = 1;
    put_victims(&mut out[3..], victims);
    part::put_parts(&mut out[after_victims..], parts);
    put_close(&mut out[after_parts..], p.rounds, p.total, p.end);
}
