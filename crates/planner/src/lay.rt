// The sheet of a book's jobs, laid from its bytes: no record and no job is made for it.
ghost use Rattle.std.specs.Prelude.{◌≡◌, ◌<◌};
ghost use Rattle.planner.specs.Standing.{SheetBlank};
ghost use Rattle.planner.specs.RowLaid.{waiting_row, laid_row, vacant_row, laid_sheet};
ghost use Rattle.planner.specs.RowRight.{RowThere};

use crate::circles::NOBODY;
use crate::sheet::{Column, Sheet};
use book::Judged;
use cursor::field::value_at;
use job::Request;
use opening::head::head_at;
use opening::held::held_at;

impl Sheet {
    // Whom a job waits for that requests this resource, and how long that one needs it.
    fn lay_wait(&mut self, bytes: &[u8], j: &Judged, job: usize, resource: usize)
        requires { job < 32 }
        ensures { self.new ≡ waiting_row bytes.now j.entry.now.starts j.entry.now.holders job resource self.old }
    {
        if 32 <= resource {
            return;
        }
        let holder = j.holders[resource];
        let row = usize::from(holder);
        if 32 <= row {
            return;
        }
        let held = held_at(bytes, j.starts[row], resource);
        self.link(job, holder, held.hold, held.rollback);
    }

    // The row of one job, from the bytes of its record. Its curve stands after its held list.
    fn lay_row(&mut self, bytes: &[u8], j: &Judged, job: usize)
        requires { RowThere bytes.now j.now.starts j.now.holders job }
        ensures { self.new ≡ laid_row bytes.now j.entry.now.starts j.entry.now.holders job self.old }
    {
        let place = j.starts[job];
        let head = head_at(bytes, place);
        let curve = place + 11 + 5 * head.holds;
        let pieces = value_at(bytes, curve, 1);
        let end = curve + 1 + 10 * pieces;
        self.put(job, Column::End, end as u32);
        self.put(job, Column::Pieces, pieces as u32);
        self.put_own(
            job,
            head.run,
            head.rollback,
            head.rolling,
            head.request.resource,
        );
        let resource = usize::from(head.request.resource);
        self.lay_wait(bytes, j, job, resource);
    }

    // A row without a job, in a sheet of zeros: it asks for nothing and waits for nobody.
    fn lay_vacant(&mut self, row: usize)
        requires { row < 32 }
        ensures { self.new ≡ vacant_row row self.old }
    {
        self.put(row, Column::Asks, u32::from(Request::NONE.resource));
        self.put(row, Column::Waits, u32::from(NOBODY));
    }

    // The sheet comes in as zeros.
    pub(crate) fn lay(&mut self, bytes: &[u8], j: &Judged)
        requires { SheetBlank bytes.now j.now.starts j.now.holders j.now.jobs self.old }
        ensures { self.new ≡ laid_sheet bytes.now j.entry.now.starts j.entry.now.holders j.entry.now.jobs }
    {
        for row in 0..32usize {
            if row < j.jobs {
                self.lay_row(bytes, j, row);
            } else {
                self.lay_vacant(row);
            }
        }
    }
}
