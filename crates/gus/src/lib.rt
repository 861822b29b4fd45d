// What the algorithms of document 000 pass on. The algorithms themselves stand in specs/, one file each.
#![tactic(auto)]

// One part of a plan: this job, in this mode, for this time.
#[derive(Clone, Copy)]
pub struct Part {
    pub job: u8,
    pub rolling: bool,
    pub time: u16,
}

impl Part {
    // What stands in the places after a row's own parts.
    pub const EMPTY: Part = Part {
        job: 0,
        rolling: false,
        time: 0,
    };
}

// How long a row of parts takes, what it earns, and whether each finish in it is inside its curve: where one is not, its worth is none, which
// is not 0 (02, R-7), and the gain is that of the others.
#[derive(Clone, Copy)]
pub struct Course {
    pub time: u32,
    pub gain: i32,
    pub inside: bool,
}

impl Course {
    // Before any part.
    pub const START: Course = Course {
        time: 0,
        gain: 0,
        inside: true,
    };
}

// The best group so far: whether there is one, its last job, its course. No Option: last and course are read where there is none too, by the
// definition of the rounds and by theorems (invariants/specs/Victim.antt, Knot.antt), and the planner picks without a jump (best.rt).
#[derive(Clone, Copy)]
pub struct Best {
    pub some: bool,
    pub last: u8,
    pub course: Course,
}

impl Best {
    // None is taken yet.
    pub const NONE: Best = Best {
        some: false,
        last: 0,
        course: Course::START,
    };
}
