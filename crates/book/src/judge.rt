// The whole book judged: its refusal, or what it has but for its records, and where these stand.
ghost use Rattle.std.specs.Prelude.{◌≡◌, replicate};
ghost use Rattle.book.specs.Judged.{judged_of, judgement, JudgedInto};

use crate::Judged;
use crate::reader::{record_judged, tail};
use cursor::head::header;
use cursor::{Header, Refusal};

// Who holds what and where the records stand go into what is lent: handed on in a `Result` they would be copied, and that was nearly half of the record question's stack.
pub(crate) fn judge_into(
    s: &[u8],
    holders: &mut [u8; 32],
    starts: &mut [usize; 33],
) -> Result<Header, Refusal>
    requires { (holders.old ≡ replicate 32 255) × (starts.old ≡ replicate 33 0) }
    ensures { JudgedInto s.now result holders.new starts.new }
{
    let head = header(s)?;
    starts[0] = head.last.next;
    let mut read = head.last;
    for i in 0..head.jobs {
        read = record_judged(s, i as u8, head.resources, holders, read.next)?;
        starts[i + 1] = read.next;
    }
    tail(s, read)?;
    Ok(head)
}

pub fn judge(s: &[u8]) -> Result<Judged, Refusal>
    ensures { result ≡ judgement (judged_of s.now) }
{
    let mut book = Judged {
        now: 0,
        jobs: 0,
        holders: [255u8; 32],
        starts: [0usize; 33],
    };
    let head = judge_into(s, &mut book.holders, &mut book.starts)?;
    book.now = head.now as u32;
    book.jobs = head.jobs;
    Ok(book)
}
