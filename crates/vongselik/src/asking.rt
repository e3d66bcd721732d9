// The questions, on the lent parts of a state: each answers the refusal's number, or 0 and its values in lent cells.
ghost use Rattle.std.specs.Prelude.{◌≡◌};
ghost use Rattle.state.specs.State.{counts_of, state_of};
ghost use Rattle.questions.specs.Questions as Q;
ghost use Rattle.basics.specs.Replies.{value};
ghost use Rattle.questions.specs.Answers.{rank_reply, named_reply, ceilings_reply};

use crate::cells::put;
use questions::{ask_ceilings, ask_inherited_rank, ask_named_lock, ask_running};
use ranks::RankSet;
use state::{Counts, JobProcessors, JobRequests, ObjectMarks, Parts, Sets};

// A job's inherited rank. Refused by 8, 10, 13.
#[unsafe(no_mangle)]
pub extern "C" fn vongselik_parts_inherited_rank<'a>(
    version: u8,
    processors: u8,
    jobs: u8,
    objects: u8,
    processor_of: &'a JobProcessors,
    may_read: Sets<'a>,
    may_write: Sets<'a>,
    active: RankSet,
    unlocked: RankSet,
    sleeping: RankSet,
    holder: u8,
    readers: Sets<'a>,
    writers: Sets<'a>,
    certified: &'a ObjectMarks,
    request: &'a JobRequests,
    rank: u8,
    inherited: &mut u8,
) -> u8
    ensures number { result ≡ (rank_reply (Q.ask_inherited_rank (state_of (counts_of version processors jobs objects) processor_of.now may_read.entry.now may_write.entry.now
        active unlocked sleeping holder readers.entry.now writers.entry.now certified.now request.now) rank)).refusal }
    ensures inherited { inherited.new ≡ value (rank_reply (Q.ask_inherited_rank (state_of (counts_of version processors jobs objects) processor_of.now may_read.entry.now may_write.entry.now
        active unlocked sleeping holder readers.entry.now writers.entry.now certified.now request.now) rank)) 0 inherited.old }
{
    let parts = Parts {
        counts: Counts {
            version,
            processors,
            jobs,
            objects,
        },
        processor_of,
        may_read,
        may_write,
        active,
        unlocked,
        sleeping,
        holder,
        readers,
        writers,
        certified,
        request,
    };
    put(ask_inherited_rank(&parts, rank), inherited)
}

// The lock that a job names: its holder and object, 0 and 0 if it names nobody. Refused by 8, 10, 13.
#[unsafe(no_mangle)]
pub extern "C" fn vongselik_parts_named_lock<'a>(
    version: u8,
    processors: u8,
    jobs: u8,
    objects: u8,
    processor_of: &'a JobProcessors,
    may_read: Sets<'a>,
    may_write: Sets<'a>,
    active: RankSet,
    unlocked: RankSet,
    sleeping: RankSet,
    holder: u8,
    readers: Sets<'a>,
    writers: Sets<'a>,
    certified: &'a ObjectMarks,
    request: &'a JobRequests,
    rank: u8,
    named_holder: &mut u8,
    named_object: &mut u8,
) -> u8
    ensures number { result ≡ (named_reply (Q.ask_named_lock (state_of (counts_of version processors jobs objects) processor_of.now may_read.entry.now may_write.entry.now
        active unlocked sleeping holder readers.entry.now writers.entry.now certified.now request.now) rank)).refusal }
    ensures holder { named_holder.new ≡ value (named_reply (Q.ask_named_lock (state_of (counts_of version processors jobs objects) processor_of.now may_read.entry.now may_write.entry.now
        active unlocked sleeping holder readers.entry.now writers.entry.now certified.now request.now) rank)) 0 named_holder.old }
    ensures object { named_object.new ≡ value (named_reply (Q.ask_named_lock (state_of (counts_of version processors jobs objects) processor_of.now may_read.entry.now may_write.entry.now
        active unlocked sleeping holder readers.entry.now writers.entry.now certified.now request.now) rank)) 1 named_object.old }
{
    let parts = Parts {
        counts: Counts {
            version,
            processors,
            jobs,
            objects,
        },
        processor_of,
        may_read,
        may_write,
        active,
        unlocked,
        sleeping,
        holder,
        readers,
        writers,
        certified,
        request,
    };
    match ask_named_lock(&parts, rank) {
        Ok(lock) => {
            *named_holder = lock.holder;
            *named_object = lock.object;
            0
        }
        Err(refusal) => refusal.number(),
    }
}

// An object's write ceiling and absolute ceiling. Refused by 8, 11.
#[unsafe(no_mangle)]
pub extern "C" fn vongselik_parts_ceilings<'a>(
    version: u8,
    processors: u8,
    jobs: u8,
    objects: u8,
    processor_of: &'a JobProcessors,
    may_read: Sets<'a>,
    may_write: Sets<'a>,
    active: RankSet,
    unlocked: RankSet,
    sleeping: RankSet,
    holder: u8,
    readers: Sets<'a>,
    writers: Sets<'a>,
    certified: &'a ObjectMarks,
    request: &'a JobRequests,
    object: u8,
    write_ceiling: &mut u16,
    absolute_ceiling: &mut u16,
) -> u8
    ensures number { result ≡ (ceilings_reply (Q.ask_ceilings (state_of (counts_of version processors jobs objects) processor_of.now may_read.entry.now may_write.entry.now
        active unlocked sleeping holder readers.entry.now writers.entry.now certified.now request.now) object)).refusal }
    ensures write { write_ceiling.new ≡ value (ceilings_reply (Q.ask_ceilings (state_of (counts_of version processors jobs objects) processor_of.now may_read.entry.now may_write.entry.now
        active unlocked sleeping holder readers.entry.now writers.entry.now certified.now request.now) object)) 0 write_ceiling.old }
    ensures absolute { absolute_ceiling.new ≡ value (ceilings_reply (Q.ask_ceilings (state_of (counts_of version processors jobs objects) processor_of.now may_read.entry.now may_write.entry.now
        active unlocked sleeping holder readers.entry.now writers.entry.now certified.now request.now) object)) 1 absolute_ceiling.old }
{
    let parts = Parts {
        counts: Counts {
            version,
            processors,
            jobs,
            objects,
        },
        processor_of,
        may_read,
        may_write,
        active,
        unlocked,
        sleeping,
        holder,
        readers,
        writers,
        certified,
        request,
    };
    match ask_ceilings(&parts, object) {
        Ok(ceilings) => {
            *write_ceiling = ceilings.write;
            *absolute_ceiling = ceilings.absolute;
            0
        }
        Err(refusal) => refusal.number(),
    }
}

// The rank that a processor runs, 0 if it is idle. Refused by 8, 19.
#[unsafe(no_mangle)]
pub extern "C" fn vongselik_parts_running<'a>(
    version: u8,
    processors: u8,
    jobs: u8,
    objects: u8,
    processor_of: &'a JobProcessors,
    may_read: Sets<'a>,
    may_write: Sets<'a>,
    active: RankSet,
    unlocked: RankSet,
    sleeping: RankSet,
    holder: u8,
    readers: Sets<'a>,
    writers: Sets<'a>,
    certified: &'a ObjectMarks,
    request: &'a JobRequests,
    processor: u8,
    rank: &mut u8,
) -> u8
    ensures number { result ≡ (rank_reply (Q.ask_running (state_of (counts_of version processors jobs objects) processor_of.now may_read.entry.now may_write.entry.now
        active unlocked sleeping holder readers.entry.now writers.entry.now certified.now request.now) processor)).refusal }
    ensures rank { rank.new ≡ value (rank_reply (Q.ask_running (state_of (counts_of version processors jobs objects) processor_of.now may_read.entry.now may_write.entry.now
        active unlocked sleeping holder readers.entry.now writers.entry.now certified.now request.now) processor)) 0 rank.old }
{
    let parts = Parts {
        counts: Counts {
            version,
            processors,
            jobs,
            objects,
        },
        processor_of,
        may_read,
        may_write,
        active,
        unlocked,
        sleeping,
        holder,
        readers,
        writers,
        certified,
        request,
    };
    put(ask_running(&parts, processor), rank)
}
