// The sheet brought up to date: after a part, and after the victims are sent back.
ghost use Rattle.std.specs.Prelude.{◌≡◌, ◌<◌, ◌≤◌};
ghost use Rattle.planner.specs.Putting.{linked, owned, relinked_row, reworked, sent_row, sent_rows};
ghost use Rattle.planner.specs.Askers.{Listed, Relinked, Askers, Reworking};
ghost use Rattle.planner.specs.Settling.{Handed, victims_in};

use crate::Victims;
use crate::circles::NOBODY;
use crate::sheet::{Column, Sheet};
use job::{Held, Job, Request};

// Who may still ask for something: places 0 .. count of the list, an array with its count since nothing allocates. A request is never made, only granted or dropped, so that nobody comes onto it.
#[derive(Clone, Copy)]
pub(crate) struct Asking {
    pub(crate) list: [u8; 32],
    pub(crate) count: usize,
}

// Every job, by number: the list before any is struck from it.
pub(crate) const EVERY: [u8; 32] = [
    0, 1, 2, 3, 4, 5, 6, 7, 8, 9, 10, 11, 12, 13, 14, 15, 16, 17, 18, 19, 20, 21, 22, 23, 24, 25,
    26, 27, 28, 29, 30, 31,
];

impl Sheet {
    // Whom a row's job waits for, and how long that one needs what it requests.
    pub(crate) fn link(&mut self, row: usize, job: u8, hold: u16, undo: u16)
        requires { row < 32 }
        ensures { self.new ≡ linked row job hold undo self.old }
    {
        self.put(row, Column::Waits, u32::from(job));
        self.put(row, Column::Hold, u32::from(hold));
        self.put(row, Column::Undo, u32::from(undo));
    }

    // A job's own numbers; whom it waits for is still to be linked.
    pub(crate) fn put_own(&mut self, job: usize, run: u16, rollback: u16, rolling: bool, asks: u8)
        requires { job < 32 }
        ensures { self.new ≡ owned job run rollback rolling asks self.old }
    {
        self.put(job, Column::Run, u32::from(run));
        self.put(job, Column::Rollback, u32::from(rollback));
        self.put(job, Column::Mode, u32::from(rolling));
        self.put(job, Column::Asks, u32::from(asks));
        self.link(job, NOBODY, 0, 0);
    }

    // The row of one who asks for what the job has so after its part.
    fn relink_row(&mut self, row: usize, job: u8, h: Held)
        requires { row < 32 }
        ensures { self.new ≡ relinked_row job h row self.old }
    {
        if 0 < h.hold {
            self.link(row, job, h.hold, h.rollback);
        } else if self.cell(row, Column::Waits) == u32::from(job) {
            self.link(row, NOBODY, 0, 0);
        }
    }

    // The rows of those on the list who ask for something; who does not is struck from it. An array has no retain, and a Vec would need a heap: who
    // stays is moved to the front.
    fn relink(&mut self, asking: &mut Asking, job: u8, held: &[Held; 32])
        requires { Listed asking.old.count asking.old.list }
        ensures { Relinked job held.now asking.old.count self.old asking.old.list self.new asking.new.count asking.new.list }
    {
        let mut left = 0;
        // By index, since an iterator over the list would borrow what the loop writes.
        for k in 0..asking.count {
            let asker = asking.list[k];
            let row = usize::from(asker);
            let resource = self.cell(row, Column::Asks) as usize;
            if resource < 32 {
                self.relink_row(row, job, held[resource]);
                asking.list[left] = asker;
                left += 1;
            }
        }
        asking.count = left;
    }

    // After a part of this job, which then is j. No row of who is not on the list is looked at, but for the job's own.
    pub(crate) fn put_worked(&mut self, asking: &mut Asking, job: u8, j: &Job)
        requires { Reworking job j.now self.old asking.old.count asking.old.list }
        ensures row { self.new ≡ reworked job j.now self.old }
        ensures list { Askers self.new asking.new.count asking.new.list }
    {
        let row = usize::from(job);
        self.put_own(row, j.run, j.rollback, j.rolling, j.request.resource);
        self.relink(asking, job, &j.held);
    }

    // "It goes into rollback and loses its request."
    fn send_row(&mut self, row: usize)
        requires { row < 32 }
        ensures { self.new ≡ sent_row row self.old }
    {
        self.put(row, Column::Mode, 1);
        self.put(row, Column::Asks, u32::from(Request::NONE.resource));
        self.link(row, NOBODY, 0, 0);
    }

    pub(crate) fn settle_rows(&mut self, v: Victims)
        requires { Handed v }
        ensures { self.new ≡ sent_rows (victims_in v) self.old }
    {
        for victim in &v.list[..v.count] {
            self.send_row(usize::from(*victim));
        }
    }
}
