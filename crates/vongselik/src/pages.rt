// The state page, of the lent parts of a state.
ghost use Rattle.std.specs.Prelude.{◌≡◌};
ghost use Rattle.state.specs.State.{counts_of, state_of};
ghost use Rattle.page.specs.Page.{write_page, page_written};
ghost use Rattle.basics.specs.Replies.{value};

use crate::cells::put;
use page::write_page;
use ranks::RankSet;
use state::{Counts, JobProcessors, JobRequests, ObjectMarks, Parts, Sets};

// Lays the state's page into the front of the buffer and its length into `length`. Answers 0, or the refusal's number, 8 or 22, and leaves all as it was.
#[unsafe(no_mangle)]
pub extern "C" fn vongselik_parts_page<'a>(
    version: u8,
    processors: u8,
    jobs: u8,
    objects: u8,
    processor_of: &'a JobProcessors,
    may_read: Sets<'a>,
    may_write: Sets<'a>,
    active: RankSet,
    unlocked: RankSet,
    sleeping: RankSet,
    holder: u8,
    readers: Sets<'a>,
    writers: Sets<'a>,
    certified: &'a ObjectMarks,
    request: &'a JobRequests,
    buffer: &mut [u8],
    length: &mut usize,
) -> u8
    ensures number { result ≡ (write_page (state_of (counts_of version processors jobs objects) processor_of.now may_read.entry.now may_write.entry.now
        active unlocked sleeping holder readers.entry.now writers.entry.now certified.now request.now) buffer.old).refusal }
    ensures buffer { buffer.new ≡ page_written (state_of (counts_of version processors jobs objects) processor_of.now may_read.entry.now may_write.entry.now
        active unlocked sleeping holder readers.entry.now writers.entry.now certified.now request.now) buffer.old }
    ensures length { length.new ≡ value (write_page (state_of (counts_of version processors jobs objects) processor_of.now may_read.entry.now may_write.entry.now
        active unlocked sleeping holder readers.entry.now writers.entry.now certified.now request.now) buffer.old) 0 length.old }
{
    let parts = Parts {
        counts: Counts {
            version,
            processors,
            jobs,
            objects,
        },
        processor_of,
        may_read,
        may_write,
        active,
        unlocked,
        sleeping,
        holder,
        readers,
        writers,
        certified,
        request,
    };
    put(write_page(&parts, buffer), length)
}
