// The lock manager's state, and questions about its parts. Ranks and objects count from 1; rank 1 is the most urgent.
#![tactic(auto)]

mod fresh;
mod lent;
mod limits;
mod marks;
mod parts;
mod refusal;
mod requests;

pub use fresh::{fresh_state, zero_state};
pub use lent::{Parts, PartsMut};
pub use limits::{counts_within, is_version, within};
pub use marks::{is_marked, shares_with_none, weighing};
pub use parts::{none_waits, of_mode, union_of};
use ranks::RankSet;
pub use refusal::Refusal;
pub use requests::{mode_of_request, object_of_request};

// A table's version, and how many processors, jobs and objects it has.
#[derive(Clone, Copy)]
pub struct Counts {
    pub version: u8,
    pub processors: u8,
    pub jobs: u8,
    pub objects: u8,
}

// A processor, a request, for each rank; a set of ranks for each object.
pub type JobProcessors = [u8; 64];

pub type JobRequests = [u16; 64];

pub type ObjectSets = [RankSet; 128];

// A set of objects: object o is bit (o - 1) % 64 of word (o - 1) / 64.
pub type ObjectMarks = [u64; 2];

// A set of ranks for each object, lent to be read, and lent to be changed.
pub type Sets<'a> = &'a ObjectSets;

pub type SetsMut<'a> = &'a mut ObjectSets;

// The table and the locks. A rank's element stands at rank - 1, an object's at object - 1.
#[derive(Clone, Copy)]
pub struct State {
    pub counts: Counts,
    pub processor_of: JobProcessors,
    pub may_read: ObjectSets,
    pub may_write: ObjectSets,
    pub active: RankSet,
    pub unlocked: RankSet,
    pub sleeping: RankSet,
    pub holder: u8,
    pub readers: ObjectSets,
    pub writers: ObjectSets,
    pub certified: ObjectMarks,
    pub request: JobRequests,
}
