// Accepted table bytes: the fresh state that they declare, of processors and rights, and where a job's entries are.
ghost use Rattle.std.specs.Prelude.{◌≡◌, ◌≤◌};
ghost use Rattle.state.specs.State.{most_jobs, read, write, most_objects};
ghost use Rattle.table_bytes.specs.Bytes.{entry_count};
ghost use Rattle.table_bytes.specs.Refusals.{table_refusal};
ghost use Rattle.table.specs.Reading.{processors_of, gives_right, with_right, declared_in, table_state};
ghost use Rattle.table.specs.JobPart.{FirstFrom};

use ranks::with;
use state::{JobProcessors, ObjectSets, SetsMut, State, fresh_state};
use table_bytes::{Entry, counts_in, entry_at, entry_count};

// Table bytes that are accepted.
#[derive(Clone, Copy)]
pub struct Accepted<'a> {
    pub bytes: &'a [u8],
    ghost accepted: { table_refusal bytes.now ≡ 0 },
}

// The ranks that may read and that may write, by object.
#[derive(Clone, Copy)]
pub struct Rights {
    pub may_read: ObjectSets,
    pub may_write: ObjectSets,
}

// Whether an entry of the mode gives the right to lock in a mode, 1 read or 2 write.
fn gives_right(mode: u8, right: u8) -> bool
    ensures { result ≡ gives_right mode right }
{
    mode == right || mode == 3
}

// Puts the entry's rank into its object's set if its mode gives the right.
fn add_right(sets: SetsMut, right: u8, entry: Entry)
    requires { ((1 ≤ entry.rank) × (entry.rank ≤ most_jobs)) × ((1 ≤ entry.object) × (entry.object ≤ most_objects)) }
    ensures { sets.exit.now ≡ with_right right entry.rank entry.object entry.mode sets.entry.now }
{
    if gives_right(entry.mode, right) {
        let place = usize::from(entry.object) - 1;
        sets[place] = with(sets[place], entry.rank);
    }
}

impl Accepted<'_> {
    // The processor of each rank, 0 above the job count.
    pub fn processors(&self) -> JobProcessors
        ensures { result ≡ processors_of self.now.bytes.now }
    {
        let jobs = usize::from(self.bytes[6]);
        let mut processors = [0; 64];
        processors[..jobs].copy_from_slice(&self.bytes[8..8 + jobs]);
        processors
    }

    // The rights that the entries declare.
    pub fn rights(&self) -> Rights
        ensures { (result.may_read ≡ declared_in read self.now.bytes.now (entry_count self.now.bytes.now))
            × (result.may_write ≡ declared_in write self.now.bytes.now (entry_count self.now.bytes.now)) }
    {
        let mut may_read = [0; 128];
        let mut may_write = [0; 128];
        for k in 0..entry_count(self.bytes) {
            let entry = entry_at(self.bytes, k);
            add_right(&mut may_read, 1, entry);
            add_right(&mut may_write, 2, entry);
        }
        Rights {
            may_read,
            may_write,
        }
    }

    // The fresh state.
    pub fn state(&self) -> State
        ensures { result ≡ table_state self.now.bytes.now }
    {
        let rights = self.rights();
        fresh_state(
            counts_in(self.bytes),
            self.processors(),
            rights.may_read,
            rights.may_write,
        )
    }

    // The first entry from `start` on of the rank or a greater one, counted from 0; the entry count if there is none.
    pub fn first_entry_from(&self, rank: u8, start: usize) -> usize
        requires { start ≤ entry_count self.now.bytes.now }
        ensures { FirstFrom self.now.bytes.now rank start result }
    {
        let count = entry_count(self.bytes);
        for k in start..count {
            if rank <= entry_at(self.bytes, k).rank {
                return k;
            }
        }
        count
    }
}
