// The planner of 01: from a book's bytes to its victims and its plan, or its refusal.
#![tactic(auto)]

use crate::sheet::Sheet;
use gus::{Course, Part};
use job::Job;

pub mod sheet; // what a round asks of the jobs: one sheet, and its readers
pub mod lay; // the sheet of a book's jobs
pub mod keep; // the sheet brought up to date after a part
pub mod view; // the jobs as a round sees them
pub mod best; // the best of those seen so far
pub mod course; // time and utility along a row of jobs
pub mod circles; // V.1: wait circles
pub mod victim; // V.1: the victim of one circle
pub mod victim_list; // V.1: all victims, and KNOT
pub mod prepare; // the sheet made ready: the book's jobs, with the victims in rollback
pub mod choice; // VI.5: the choice of a mode
pub mod chain; // VI.2: the chain of a job
pub mod walk; // VI.3: along a chain, member by member
pub mod group; // VI.3: the group of a job
pub mod scan; // VI.1: the best group of a round
pub mod round; // VI.1: one round, the group that it appends
pub mod apply; // VI.4: what a part does to its job, and to who holds what
pub mod settle; // the victims go into rollback
pub mod rounds; // VI.1: round after round
pub mod plan; // the whole plan of a book
pub mod first; // the first part of the plan, by one round

// The planner's state: the job records by number; who holds each resource, a job's number or 255 for nobody; and of each job what a round asks,
// whom it waits for among it, kept equal to what a fresh look through requests and holders gives (02, R-6).
#[derive(Clone, Copy)]
pub struct State {
    pub jobs: [Job; 32],
    pub holders: [u8; 32],
    pub sheet: Sheet,
}

// In the four below each array stands with its count: nothing allocates, and 01 asks for the room for parts as an array of 96 by value.

// The victims by the lowest member of their circle: places 0 .. count of list, and 0 in the others.
// knot is the lowest job of a circle that has none, and 255 where each circle has one, a number as in `knot_of`.
#[derive(Clone, Copy)]
pub struct Victims {
    pub list: [u8; 32],
    pub count: usize,
    pub knot: u8,
}

// A group as numbers: parts 0 .. count, farthest holder first, and empty parts after them.
#[derive(Clone, Copy)]
pub struct GroupParts {
    pub parts: [Part; 32],
    pub count: usize,
    pub course: Course,
}

impl GroupParts {
    pub(crate) const NONE: GroupParts = GroupParts {
        parts: [Part::EMPTY; 32],
        count: 0,
        course: Course::START,
    };
}

// A plan as numbers: parts 0 .. count, and empty parts after them; moment is its end.
#[derive(Clone, Copy)]
pub struct PlanParts {
    pub parts: [Part; 96],
    pub count: usize,
    pub rounds: usize,
    pub total: i32,
    pub moment: u32,
}

// The plan of a book: victims 0 .. victimcount and parts 0 .. count, and empty places after them.
#[derive(Clone, Copy)]
pub struct BookPlan {
    pub victims: [u8; 32],
    pub victimcount: usize,
    pub parts: [Part; 96],
    pub count: usize,
    pub rounds: usize,
    pub total: i32,
    pub end: u32,
}
