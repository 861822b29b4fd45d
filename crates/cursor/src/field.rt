// One field, and one further rule.
ghost use Rattle.std.specs.Prelude.{◌≡◌, ◌<◌, ◌^◌};
ghost use Rattle.cursor.specs.Field.{value_in};
ghost use Rattle.cursor.specs.Answer.{field_at, field_after, ruled, ruled_after};

use crate::{FieldRead, Refusal};

// Numbers and no enum: see `Refusal`.
pub const ROOM: u8 = 1;

pub const SIZE: u8 = 2;

pub const VERSION: u8 = 3;

pub const COUNT: u8 = 4;

pub const CUT: u8 = 5;

pub const RANGE: u8 = 6;

pub const TWICE: u8 = 7;

pub const MODE: u8 = 8;

pub const TAIL: u8 = 9;

// the number of n bytes, n being 1, 2 or 4, and 0 for any other n; 0 too where the bytes end before
pub fn value_at(s: &[u8], place: usize, n: usize) -> usize
    ensures { (result ≡ value_in s.now place n) × (result < 256 ^ n) }
{
    if s.len() < n || s.len() - n < place {
        return 0;
    }
    match n {
        1 => usize::from(s[place]),
        2 => usize::from(u16::from_be_bytes([s[place], s[place + 1]])),
        4 => u32::from_be_bytes([s[place], s[place + 1], s[place + 2], s[place + 3]]) as usize,
        _ => 0,
    }
}

// The n bytes at a place, low to high; CUT where they run past the end, and else the refusal with that number.
pub fn field(
    s: &[u8],
    place: usize,
    n: usize,
    low: usize,
    high: usize,
    number: u8,
) -> Result<FieldRead, Refusal>
    ensures { result ≡ field_at s.now place n low high number }
{
    if s.len() < n || s.len() - n < place {
        return Err(Refusal { number: CUT, place });
    }
    let value = value_at(s, place, n);
    if value < low || high < value {
        return Err(Refusal { number, place });
    }
    Ok(FieldRead {
        place,
        next: place + n,
        value,
    })
}

// A further rule on what was read: the refusal with that number at that place, unless it holds.
pub fn rule(f: FieldRead, ok: bool, number: u8, place: usize) -> Result<FieldRead, Refusal>
    ensures { result ≡ ruled ok number place f }
{
    if ok {
        Ok(f)
    } else {
        Err(Refusal { number, place })
    }
}

// The n bytes after what was read, or the refusal met before.
pub fn field_after(
    s: &[u8],
    read: Result<FieldRead, Refusal>,
    n: usize,
    low: usize,
    high: usize,
    number: u8,
) -> Result<FieldRead, Refusal>
    ensures { result ≡ field_after s.now n low high number read }
{
    field(s, read?.next, n, low, high, number)
}

// A further rule on what was read, or the refusal met before.
pub fn rule_after(
    read: Result<FieldRead, Refusal>,
    ok: bool,
    number: u8,
    place: usize,
) -> Result<FieldRead, Refusal>
    ensures { result ≡ ruled_after ok number place read }
{
    rule(read?, ok, number, place)
}
