// Tables, between lent bytes and the lent parts of a state.
ghost use Rattle.std.specs.Prelude.{◌≡◌};
ghost use Rattle.state.specs.State.{counts_of, state_of};
ghost use Rattle.table.specs.Reading.{read_table};
ghost use Rattle.table_writer.specs.Writing.{write_table, written};
ghost use Rattle.vongselik.specs.Lending.{state_read, used_read};
ghost use Rattle.basics.specs.Replies.{value};

use crate::cells::put;
use ranks::RankSet;
use state::{Counts, JobProcessors, JobRequests, ObjectMarks, Sets, SetsMut, State};
use table_writer::write_table;

// Reads a table into the lent parts of a state, and its length into `used`. Answers 0, or the refusal's number, 1 to 7, and leaves all as it was.
#[unsafe(no_mangle)]
pub extern "C" fn vongselik_parts_read_table(
    bytes: &[u8],
    used: &mut usize,
    version: &mut u8,
    processors: &mut u8,
    jobs: &mut u8,
    objects: &mut u8,
    processor_of: &mut JobProcessors,
    may_read: SetsMut,
    may_write: SetsMut,
    active: &mut RankSet,
    unlocked: &mut RankSet,
    sleeping: &mut RankSet,
    holder: &mut u8,
    readers: SetsMut,
    writers: SetsMut,
    certified: &mut ObjectMarks,
    request: &mut JobRequests,
) -> u8
    ensures number { result ≡ (read_table bytes.now).refusal }
    ensures used { used.new ≡ used_read (read_table bytes.now) used.old }
    ensures state { state_of (counts_of version.new processors.new jobs.new objects.new) processor_of.new may_read.exit.now may_write.exit.now
        active.new unlocked.new sleeping.new holder.new readers.exit.now writers.exit.now certified.new request.new
        ≡ state_read (read_table bytes.now)
        (state_of (counts_of version.old processors.old jobs.old objects.old) processor_of.old may_read.entry.now may_write.entry.now
        active.old unlocked.old sleeping.old holder.old readers.entry.now writers.entry.now certified.old request.old) }
{
    let read = table::read_table(bytes);
    if let Err(refusal) = read.ended {
        return refusal.number();
    }
    let next = read.state.parts();
    *used = read.used;
    *version = next.counts.version;
    *processors = next.counts.processors;
    *jobs = next.counts.jobs;
    *objects = next.counts.objects;
    *processor_of = *next.processor_of;
    *may_read = *next.may_read;
    *may_write = *next.may_write;
    *active = next.active;
    *unlocked = next.unlocked;
    *sleeping = next.sleeping;
    *holder = next.holder;
    *readers = *next.readers;
    *writers = *next.writers;
    *certified = *next.certified;
    *request = *next.request;
    0
}

// Lays the state's table into the front of the buffer and its length into `length`. Answers 0, or the refusal's number, 8 or 20, and leaves all as it was.
#[unsafe(no_mangle)]
pub extern "C" fn vongselik_parts_write_table<'a>(
    version: u8,
    processors: u8,
    jobs: u8,
    objects: u8,
    processor_of: &'a JobProcessors,
    may_read: Sets<'a>,
    may_write: Sets<'a>,
    active: RankSet,
    unlocked: RankSet,
    sleeping: RankSet,
    holder: u8,
    readers: Sets<'a>,
    writers: Sets<'a>,
    certified: &'a ObjectMarks,
    request: &'a JobRequests,
    buffer: &mut [u8],
    length: &mut usize,
) -> u8
    ensures number { result ≡ (write_table (state_of (counts_of version processors jobs objects) processor_of.now may_read.entry.now may_write.entry.now
        active unlocked sleeping holder readers.entry.now writers.entry.now certified.now request.now) buffer.old).refusal }
    ensures buffer { buffer.new ≡ written (state_of (counts_of version processors jobs objects) processor_of.now may_read.entry.now may_write.entry.now
        active unlocked sleeping holder readers.entry.now writers.entry.now certified.now request.now) buffer.old }
    ensures length { length.new ≡ value (write_table (state_of (counts_of version processors jobs objects) processor_of.now may_read.entry.now may_write.entry.now
        active unlocked sleeping holder readers.entry.now writers.entry.now certified.now request.now) buffer.old) 0 length.old }
{
    let state = State {
        counts: Counts {
            version,
            processors,
            jobs,
            objects,
        },
        processor_of: *processor_of,
        may_read: *may_read,
        may_write: *may_write,
        active,
        unlocked,
        sleeping,
        holder,
        readers: *readers,
        writers: *writers,
        certified: *certified,
        request: *request,
    };
    put(write_table(state, buffer), length)
}
