// The lock manager for C: events, questions, tables, the state page and test loads on the parts of a state of the caller's, each lent by itself.
#![tactic(auto)]

ghost use Rattle.std.specs.Prelude.{◌≡◌};
ghost use Rattle.state.specs.State.{counts_of, state_of};
ghost use Rattle.events.specs.Answers.{paper};
ghost use Rattle.events.specs.Packing.{packed, unpacked};
ghost use Rattle.manager.specs.Step.{step};

mod asking;
mod cells;
mod entries;
mod lists;
mod loads;
mod pages;
mod tables;

use manager::{act_packed, is_well_formed};
use ranks::RankSet;
use state::{Counts, JobProcessors, JobRequests, ObjectMarks, PartsMut, Sets, SetsMut};

// An event: its answer packed into a number that can be taken apart again, and the parts of the next state. A refusal, by 8 to 18, 21 or 24 to 27,
// leaves every part as it was.
#[unsafe(no_mangle)]
pub extern "C" fn vongselik_parts_event<'a>(
    version: u8,
    processors: u8,
    jobs: u8,
    objects: u8,
    processor_of: &'a JobProcessors,
    may_read: Sets<'a>,
    may_write: Sets<'a>,
    active: &mut RankSet,
    unlocked: &mut RankSet,
    sleeping: &mut RankSet,
    holder: &mut u8,
    readers: SetsMut,
    writers: SetsMut,
    certified: &mut ObjectMarks,
    request: &mut JobRequests,
    kind: u8,
    rank: u8,
    object: u8,
) -> u32
    ensures answer { result ≡ packed (step (state_of (counts_of version processors jobs objects) processor_of.now may_read.entry.now may_write.entry.now
        active.old unlocked.old sleeping.old holder.old readers.entry.now writers.entry.now certified.old request.old) kind rank object).answer }
    ensures apart { unpacked result ≡ paper (step (state_of (counts_of version processors jobs objects) processor_of.now may_read.entry.now may_write.entry.now
        active.old unlocked.old sleeping.old holder.old readers.entry.now writers.entry.now certified.old request.old) kind rank object).answer }
    ensures next { state_of (counts_of version processors jobs objects) processor_of.now may_read.entry.now may_write.entry.now
        active.new unlocked.new sleeping.new holder.new readers.exit.now writers.exit.now certified.new request.new
        ≡ (step (state_of (counts_of version processors jobs objects) processor_of.now may_read.entry.now may_write.entry.now
        active.old unlocked.old sleeping.old holder.old readers.entry.now writers.entry.now certified.old request.old) kind rank object).state }
{
    let mut state = PartsMut {
        counts: Counts {
            version,
            processors,
            jobs,
            objects,
        },
        processor_of,
        may_read,
        may_write,
        active,
        unlocked,
        sleeping,
        holder,
        readers,
        writers,
        certified,
        request,
    };
    let well = is_well_formed(&state);
    act_packed(well, &mut state, kind, rank, object)
}
