// The chain of a job (VI.2).
ghost use Rattle.std.specs.Prelude.{◌≡◌};
ghost use Rattle.planner.specs.Sheet.{waits_in};
ghost use Rattle.planner.specs.Seen.{seen_by};
ghost use Rattle.planner.specs.Asking.{Tracing, Placing};
ghost use Rattle.planner.specs.Following.{Followed};
ghost use Rattle.planner.specs.Turn.{span_at};

use crate::sheet::{Column, Sheet};
use crate::view::View;

// Members from .. 32, farthest holder first, and the view of the jobs that they are.
#[derive(Clone, Copy)]
pub(crate) struct Chain<'a> {
    pub(crate) view: &'a View<'a>,
    pub(crate) members: &'a [u8; 32],
    pub(crate) from: usize,
}

impl Chain<'_> {
    // How long the member at place k takes in a mode: until what the next one requests is free; the last one to its end.
    pub(crate) fn span_at(&self, k: usize, back: bool) -> u32
        requires { Placing self.now.members.now k }
        ensures { result ≡ span_at (seen_by self.now.view.now) self.now.members.now k back }
    {
        let sheet = self.view.sheet;
        if k < 31 {
            let next = usize::from(self.members[k + 1]);
            if back {
                return sheet.cell(next, Column::Undo);
            }
            return sheet.cell(next, Column::Hold);
        }
        let last = usize::from(self.members[k]);
        if back {
            return sheet.cell(last, Column::Rollback);
        }
        sheet.cell(last, Column::Run)
    }
}

fn follow(sheet: &Sheet, last: usize, members: &mut [u8; 32]) -> usize
    requires { Tracing last members.old }
    ensures { Followed (waits_in sheet.now) last members.new result }
{
    members[31] = last as u8;
    let mut job = sheet.cell(last, Column::Waits) as usize;
    for from in (0..31).rev() {
        if 32 <= job {
            return from + 1;
        }
        members[from] = job as u8;
        job = sheet.cell(job, Column::Waits) as usize;
    }
    0
}

impl View<'_> {
    // The chain of a job, in the caller's array: one that came back by value would be copied for each job.
    pub(crate) fn chain_of<'a>(&'a self, last: usize, members: &'a mut [u8; 32]) -> Chain<'a>
        requires { Tracing last members.old }
        ensures { (result.view ≡ self.entry) × Followed (waits_in self.now.sheet.now) last result.members.now result.from }
    {
        let from = follow(self.sheet, last, members);
        Chain {
            view: self,
            members,
            from,
        }
    }
}
