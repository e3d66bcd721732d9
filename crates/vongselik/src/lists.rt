// A list of events, on the lent parts of a state.
ghost use Rattle.std.specs.Prelude.{◌≡◌, ◌++◌, drop};
ghost use Rattle.state.specs.State.{counts_of, state_of};
ghost use Rattle.manager.specs.EventList.{state_after, answers_to, event_count, whole_events};

use manager::act_each;
use ranks::RankSet;
use state::{Counts, JobProcessors, JobRequests, ObjectMarks, PartsMut, Sets, SetsMut};

// Events, one after the other, in the bytes: as many as the bytes and the list of answers both hold whole, their packed answers at the front of the list and
// the parts of the state behind them, as by a call for each; the state is tested once. The answers behind them stay. Answers how many events there were.
#[unsafe(no_mangle)]
pub extern "C" fn vongselik_parts_events<'a>(
    version: u8,
    processors: u8,
    jobs: u8,
    objects: u8,
    processor_of: &'a JobProcessors,
    may_read: Sets<'a>,
    may_write: Sets<'a>,
    active: &mut RankSet,
    unlocked: &mut RankSet,
    sleeping: &mut RankSet,
    holder: &mut u8,
    readers: SetsMut,
    writers: SetsMut,
    certified: &mut ObjectMarks,
    request: &mut JobRequests,
    events: &[u8],
    answers: &mut [u32],
) -> usize
    ensures number { result ≡ event_count events.now answers.old }
    ensures answers { answers.new ≡ answers_to (state_of (counts_of version processors jobs objects) processor_of.now may_read.entry.now may_write.entry.now
        active.old unlocked.old sleeping.old holder.old readers.entry.now writers.entry.now certified.old request.old)
        (whole_events events.now answers.old) ++ drop (event_count events.now answers.old) answers.old }
    ensures state { state_of (counts_of version processors jobs objects) processor_of.now may_read.entry.now may_write.entry.now
        active.new unlocked.new sleeping.new holder.new readers.exit.now writers.exit.now certified.new request.new
        ≡ state_after (state_of (counts_of version processors jobs objects) processor_of.now may_read.entry.now may_write.entry.now
        active.old unlocked.old sleeping.old holder.old readers.entry.now writers.entry.now certified.old request.old)
        (whole_events events.now answers.old) }
{
    let mut state = PartsMut {
        counts: Counts {
            version,
            processors,
            jobs,
            objects,
        },
        processor_of,
        may_read,
        may_write,
        active,
        unlocked,
        sleeping,
        holder,
        readers,
        writers,
        certified,
        request,
    };
    act_each(&mut state, events, answers)
}
