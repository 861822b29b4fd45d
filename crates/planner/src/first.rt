// The first part of a book's plan (02, R-2): the circles are settled, one round is made, and nothing is done for later ones. No state is made:
// the sheet says all that a round asks.
ghost use Rattle.std.specs.Prelude.{◌≡◌};
ghost use Rattle.planner.specs.Planned.{planned_of};
ghost use Rattle.planner.specs.First.{first_in};
ghost use Rattle.planner.specs.Told.{first_told};

use crate::prepare::prepare;
use crate::sheet::Sheet;
use crate::view::View;
use book::judge::judge;
use cursor::Refusal;
use gus::Part;

// That one round tells the whole plan's first part is `first-planned`.
pub fn first_part(bytes: &[u8]) -> Result<Option<Part>, Refusal>
    ensures { result ≡ first_told (first_in (planned_of bytes.now)) }
{
    let j = judge(bytes)?;
    let mut sheet = Sheet::blank();
    prepare(bytes, &j, &mut sheet)?;
    let view = View {
        bytes,
        sheet: &sheet,
        moment: j.now,
        jobs: j.jobs,
    };
    let g = view.round();
    Ok(g.parts[..g.count].first().copied())
}
