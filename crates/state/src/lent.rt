// The parts of a state, lent: to be read, and to be changed in place.
ghost use Rattle.std.specs.Prelude.{◌≡◌};
ghost use Rattle.state.specs.Lent.{state_in, state_in_mut};

use crate::{Counts, JobProcessors, JobRequests, ObjectMarks, Sets, SetsMut, State};
use ranks::RankSet;

// The parts of a state, lent to be read.
#[derive(Clone, Copy)]
pub struct Parts<'a> {
    pub counts: Counts,
    pub processor_of: &'a JobProcessors,
    pub may_read: Sets<'a>,
    pub may_write: Sets<'a>,
    pub active: RankSet,
    pub unlocked: RankSet,
    pub sleeping: RankSet,
    pub holder: u8,
    pub readers: Sets<'a>,
    pub writers: Sets<'a>,
    pub certified: &'a ObjectMarks,
    pub request: &'a JobRequests,
}

// The parts of a state, those that events change lent to be changed.
#[derive(Drop)]
pub struct PartsMut<'a> {
    pub counts: Counts,
    pub processor_of: &'a JobProcessors,
    pub may_read: Sets<'a>,
    pub may_write: Sets<'a>,
    pub active: &'a mut RankSet,
    pub unlocked: &'a mut RankSet,
    pub sleeping: &'a mut RankSet,
    pub holder: &'a mut u8,
    pub readers: SetsMut<'a>,
    pub writers: SetsMut<'a>,
    pub certified: &'a mut ObjectMarks,
    pub request: &'a mut JobRequests,
}

impl State {
    // The state's parts, lent to be read.
    pub fn parts(&self) -> Parts<'_>
        ensures { state_in result ≡ self.now }
    {
        Parts {
            counts: self.counts,
            processor_of: &self.processor_of,
            may_read: &self.may_read,
            may_write: &self.may_write,
            active: self.active,
            unlocked: self.unlocked,
            sleeping: self.sleeping,
            holder: self.holder,
            readers: &self.readers,
            writers: &self.writers,
            certified: &self.certified,
            request: &self.request,
        }
    }
}

impl<'a> PartsMut<'a> {
    // The same parts, lent to be read.
    pub fn read(&self) -> Parts<'_>
        ensures { state_in result ≡ state_in_mut self.now }
    {
        Parts {
            counts: self.counts,
            processor_of: self.processor_of,
            may_read: self.may_read,
            may_write: self.may_write,
            active: *self.active,
            unlocked: *self.unlocked,
            sleeping: *self.sleeping,
            holder: *self.holder,
            readers: self.readers,
            writers: self.writers,
            certified: self.certified,
            request: self.request,
        }
    }
}
