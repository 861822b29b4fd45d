// The sheet made ready for the first round: the book's jobs, with the victims in rollback.
ghost use Rattle.planner.specs.Standing.{Unlaid};
ghost use Rattle.planner.specs.Preparing.{PreparedFor};

use crate::Victims;
use crate::sheet::Sheet;
use crate::view::View;
use book::Judged;
use cursor::Refusal;

const KNOT: u8 = 10;

// The victims, or KNOT where a circle has none, and then nobody is sent back.
pub(crate) fn prepare(bytes: &[u8], j: &Judged, sheet: &mut Sheet) -> Result<Victims, Refusal>
    requires { Unlaid bytes.now j.now sheet.old }
    ensures { PreparedFor bytes.now sheet.new result }
{
    sheet.lay(bytes, j);
    let view = View {
        bytes,
        sheet,
        moment: j.now,
        jobs: j.jobs,
    };
    let v = view.victims();
    if v.knot < 32 {
        return Err(Refusal {
            number: KNOT,
            place: usize::from(v.knot),
        });
    }
    sheet.settle_rows(v);
    Ok(v)
}
