// The answers that the calls of 01 give and the paths that its steps take, for the definitions in specs/, which say
// what each value means. The code has requests, verdicts, a new pool's path and what becomes of an arena as values;
// answers, for which it has results, and the other paths stand in its contracts alone. `Answer`, `Sized`, `Rolled` and
// `Compared` are four, and a verdict and the paths are no `Result`s: the definitions and theorems are over them.
#![tactic(auto)]

// Format, ask, a batch of asks, give back, resize and write: 01's number, and the offset that its table of numbers puts
// beside it.
#[derive(Clone, Copy)]
pub struct Answer {
    pub number: u32,
    pub offset: u32,
}

// A request of a batch: the size that is asked for, and the places for the number and the offset of its answer. In the
// layout of C, since a caller lends a row of them.
#[repr(C)]
#[derive(Clone, Copy)]
pub struct Request {
    pub size: u32,
    pub number: u32,
    pub offset: u32,
}

// View's companion: the number and, when done, the block size, otherwise 0.
#[derive(Clone, Copy)]
pub struct Sized {
    pub number: u32,
    pub size: u32,
}

// Roll call: the number and, when done, how many blocks are live, otherwise 0.
#[derive(Clone, Copy)]
pub struct Rolled {
    pub number: u32,
    pub count: u32,
}

// Compare: the number and, when done, how many offsets differ, otherwise 0.
#[derive(Clone, Copy)]
pub struct Compared {
    pub number: u32,
    pub entries: u32,
}

// The audit: yes, or the first broken rule, by what it is about, in the order of their numbers from 1 (`number_of`).
#[derive(Clone, Copy)]
pub enum Verdict {
    Yes,
    Shape,
    Zeros,
    Closed,
    Open,
    Bits,
    Lists,
    Counts,
    Blocks,
    Order,
}

// Where an ask gets a pool when its class list is empty. The number is the arena's.
#[derive(Clone, Copy)]
pub enum Source {
    Freed(usize),
    Carved(usize),
    Opened(usize),
}

// The path of an ask. Its numbers are the pool's and the in-pool offsets of the block that is handed out and of the
// block that becomes freeblock; Again has the arena's before them. Anew hands out the block at 48.
#[derive(Clone, Copy)]
pub enum AskPlan {
    NoRoom,
    Damaged,
    Follow(usize, usize, usize),
    Ready(usize, usize, usize),
    Last(usize, usize),
    Again(usize, usize, usize, usize),
    Anew(Source, usize),
}

// The path of a give-back: what becomes of the block's pool, and then of the pool's arena. Moves has the number of the
// arena that it passes last.
#[derive(Clone, Copy)]
pub enum BackPlan {
    Damaged,
    Joins,
    Stays,
    Empties,
    Moves(usize),
    Returns,
    Releases,
}
