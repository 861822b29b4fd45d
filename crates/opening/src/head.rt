// A record's first eleven bytes: all but its held list and its curve (01, "The job book").
ghost use Rattle.std.specs.Prelude.{◌≡◌, ◌+◌, ◌<◌, ◌≤◌, length};
ghost use Rattle.opening.specs.Taken.{head_at, head_in};

use crate::field::{entry_there, field_there};
use job::Request;

#[derive(Clone, Copy)]
pub struct Head {
    pub rolling: bool,
    pub run: u16,
    pub rollback: u16,
    pub request: Request,
    pub holds: usize,
}

const NO_HEAD: Head = Head {
    rolling: false,
    run: 0,
    rollback: 0,
    request: Request::NONE,
    holds: 0,
};

fn head_there(s: &[u8], place: usize) -> Head
    requires { place + 11 ≤ length s.now }
    ensures { (result ≡ head_at s.now place) × (result.holds < 256) }
{
    Head {
        rolling: field_there(s, place, 1) == 1,
        run: field_there(s, place + 1, 2) as u16,
        rollback: field_there(s, place + 3, 2) as u16,
        request: entry_there(s, place + 5).into(),
        holds: field_there(s, place + 10, 1),
    }
}

// Of any bytes, at any place; of a record whose held list is not all there nothing is taken. So no reader of an entry asks again.
#[tactic(auto, unfolding(crate::specs::Taken::head_in))]
pub fn head_at(s: &[u8], place: usize) -> Head
    ensures { result ≡ head_in s.now place }
{
    let Some((_, list)) = s.get(place..).and_then(|r| r.split_first_chunk::<11>()) else {
        return NO_HEAD;
    };
    let head = head_there(s, place);
    if list.len() < 5 * head.holds {
        return NO_HEAD;
    }
    head
}
