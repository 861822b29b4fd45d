// One field that is there, and one entry.
ghost use Rattle.std.specs.Prelude.{◌≡◌, ◌+◌, ◌≤◌, ◌<◌, ◌^◌, length};
ghost use Rattle.accepted.specs.Layout.{entry_at, held_at};
ghost use Rattle.cursor.specs.Field.{value_at};
ghost use Rattle.opening.specs.Taken.{head_in};

use book::Entry;
use cursor::field::value_at;

// As a part of its own the field has a length that the compiler knows, so that the reader's question whether it is there costs nothing.
pub(crate) fn field_there(s: &[u8], place: usize, n: usize) -> usize
    requires { place + n ≤ length s.now }
    ensures { (result ≡ value_at s.now place n) × (result < 256 ^ n) }
{
    value_at(&s[place..place + n], 0, n)
}

pub(crate) fn entry_there(s: &[u8], place: usize) -> Entry
    requires { place + 5 ≤ length s.now }
    ensures { result ≡ entry_at s.now place }
{
    Entry {
        resource: field_there(s, place, 1) as u8,
        hold: field_there(s, place + 1, 2) as u16,
        rollback: field_there(s, place + 3, 2) as u16,
    }
}

// Entry k of the record at a place.
#[tactic(auto, using(crate::proofs::Laid::listed_ends))]
pub(crate) fn listed_there(s: &[u8], place: usize, k: usize) -> Entry
    requires { k < (head_in s.now place).holds }
    ensures { result ≡ held_at s.now place k }
{
    entry_there(s, place + 11 + 5 * k)
}
