// Parts as bytes in a lent output, and one part as a number.
ghost use Rattle.std.specs.Prelude.{◌≡◌, ◌∷◌, ◌+◌, ◌*◌, ◌≤◌, length};
ghost use Rattle.laws.specs.Stores.{over};
ghost use Rattle.ilhuepatl.specs.Answer.{part_bytes, parts_bytes};
ghost use Rattle.ilhuepatl.specs.Calls.{part_word};

use gus::Part;

// Job, mode and time from the top down, for C.
pub(crate) fn part_word(p: Part) -> u64
    ensures { result ≡ part_word p }
{
    u64::from(p.job) * 16777216 + u64::from(p.rolling) * 65536 + u64::from(p.time)
}

// "mode 1 as in the book": 0 normal, 1 rollback
fn bytes_of(p: Part) -> [u8; 4]
    ensures { result ≡ part_bytes p }
{
    let [high, low] = p.time.to_be_bytes();
    [p.job, u8::from(p.rolling), high, low]
}

// The part count and the parts.
pub(crate) fn put_parts(out: &mut [u8], parts: &[Part])
    requires { (length parts.now ≤ 255) × (1 + 4 * length parts.now ≤ length out.old) }
    ensures { out.new ≡ over (length parts.now ∷ parts_bytes parts.now) out.old }
{
    out[0] = parts.len() as u8;
    for (i, p) in parts.iter().enumerate() {
        let at = 1 + 4 * i;
        out[at..at + 4].copy_from_slice(&bytes_of(*p));
    }
}
