// A test load from a seed, for the lent parts of a state.
ghost use Rattle.std.specs.Prelude.{◌≡◌};
ghost use Rattle.state.specs.State.{counts_of, state_of};
ghost use Rattle.generator.specs.Load.{make_events, events_made};

use generator::make_load;
use ranks::RankSet;
use state::{Counts, JobProcessors, JobRequests, ObjectMarks, Parts, Sets};

// Lays so many events from the seed into the front of the buffer and puts the next seed into `seed`. Answers 0, or the refusal's number, 8 or 23, and leaves
// all as it was.
#[unsafe(no_mangle)]
pub extern "C" fn vongselik_parts_make_events<'a>(
    version: u8,
    processors: u8,
    jobs: u8,
    objects: u8,
    processor_of: &'a JobProcessors,
    may_read: Sets<'a>,
    may_write: Sets<'a>,
    active: RankSet,
    unlocked: RankSet,
    sleeping: RankSet,
    holder: u8,
    readers: Sets<'a>,
    writers: Sets<'a>,
    certified: &'a ObjectMarks,
    request: &'a JobRequests,
    seed: &mut u32,
    count: usize,
    buffer: &mut [u8],
) -> u8
    ensures number { result ≡ (make_events (state_of (counts_of version processors jobs objects) processor_of.now may_read.entry.now may_write.entry.now
        active unlocked sleeping holder readers.entry.now writers.entry.now certified.now request.now) seed.old count buffer.old).refusal }
    ensures seed { seed.new ≡ (make_events (state_of (counts_of version processors jobs objects) processor_of.now may_read.entry.now may_write.entry.now
        active unlocked sleeping holder readers.entry.now writers.entry.now certified.now request.now) seed.old count buffer.old).seed }
    ensures buffer { buffer.new ≡ events_made (state_of (counts_of version processors jobs objects) processor_of.now may_read.entry.now may_write.entry.now
        active unlocked sleeping holder readers.entry.now writers.entry.now certified.now request.now) seed.old count buffer.old }
{
    let parts = Parts {
        counts: Counts {
            version,
            processors,
            jobs,
            objects,
        },
        processor_of,
        may_read,
        may_write,
        active,
        unlocked,
        sleeping,
        holder,
        readers,
        writers,
        certified,
        request,
    };
    match make_load(&parts, seed, count, buffer) {
        Ok(()) => 0,
        Err(refusal) => refusal.number(),
    }
}
