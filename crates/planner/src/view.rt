// The view of the jobs (gus/specs/View.antt) that the lent book and the sheet give, at the planned moment. It is lent to its methods, which stand
// by subject: by value it is copied at each call. course.rt, chain.rt, group.rt, scan.rt and round.rt ask it, and victim.rt and victim_list.rt.

use crate::sheet::Sheet;

#[derive(Clone, Copy)]
pub(crate) struct View<'a> {
    pub(crate) bytes: &'a [u8],
    pub(crate) sheet: &'a Sheet,
    pub(crate) moment: u32,
    pub(crate) jobs: usize, // how many of the rows have a job
}
