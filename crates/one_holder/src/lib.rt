// The locks of one holder, and the most urgent holder's deciding a request (02, CR 9).
#![tactic(auto)]

ghost use Rattle.std.specs.Prelude.{◌≡◌, ◌⊎◌, false, ◌||◌, ℕ, ◌+◌, ◌≤◌, ◌<◌, eqb, if◌then◌else◌};
ghost use Rattle.basics.specs.Arrays.{at};
ghost use Rattle.state.specs.State.{most_jobs, most_objects, marked};
ghost use Rattle.state.specs.Lent.{state_in};
ghost use Rattle.weights.specs.Keys.{lock_key, no_key};
ghost use Rattle.one_holder.specs.OneHolder.{holder_key_at, holder_key, key_against, deciding_key, weighed_by, passes_lock};
ghost use Rattle.one_holder.specs.Gathering.{block_size, held_by, LocksOf, HeldTo};

use ranks::RankSet;
use state::{Parts, union_of, weighing};
use weights::{NO_KEY, ceiling, lock_key, more_urgent, write_weight};

// Objects, the first so many of a list.
#[derive(Clone, Copy)]
pub struct Locked {
    pub objects: [u8; 128],
    pub count: usize,
}

// How many objects from an index on are passed over together: eight where a block begins there in which the rank has no lock, else none.
fn passed_over(parts: &Parts, from: usize, rank: u8) -> usize
    requires { (from < most_objects) × (1 ≤ rank) × (rank ≤ most_jobs) }
    ensures { (result ≡ 0) ⊎ ((result ≡ block_size) × (from + block_size ≤ most_objects) × ((k : ℕ) → 1 ≤ k → k ≤ block_size → held_by parts.now.readers.now parts.now.writers.now rank (from + k) ≡ false)) }
{
    if from % 8 != 0 {
        return 0;
    }
    let held = ranks::union(
        union_of(parts.readers, from, 8),
        union_of(parts.writers, from, 8),
    );
    if ranks::contains(held, rank) { 0 } else { 8 }
}

// The objects of the table that the rank has locked; none where the rank is 0, nobody.
pub fn locked_by(parts: &Parts, rank: u8) -> Locked
    requires { (parts.now.counts.objects ≤ most_objects) × (rank ≤ most_jobs) }
    ensures locks { LocksOf parts.now.readers.now parts.now.writers.now rank parts.now.counts.objects result.objects result.count }
    ensures held { HeldTo parts.now.readers.now parts.now.writers.now rank result.objects result.count }
{
    let most = parts.counts.objects as usize;
    let mut objects = [0; 128];
    let mut count = 0;
    if rank == 0 {
        return Locked { objects, count };
    }
    let mut i = 0;
    while i < most {
        let free = passed_over(parts, i, rank);
        if free != 0 {
            i += free;
        } else {
            let held = ranks::contains(ranks::union(parts.readers[i], parts.writers[i]), rank);
            objects[count] = (i + 1) as u8;
            count += held as usize;
            i += 1;
        }
    }
    Locked { objects, count }
}

// The key of the holder's lock on the object if it has that lock, by what the lock weighs; else no lock's.
fn key_if(held: bool, weight: u16, holder: u8, object: u8) -> u64
    ensures { result ≡ (if held then lock_key weight holder object else no_key) }
{
    if held {
        lock_key(weight, holder, object)
    } else {
        NO_KEY
    }
}

// The lowest key among the locks that the holder has on the object.
pub fn own_key_at(parts: &Parts, object: u8, holder: u8) -> u64
    requires { (1 ≤ object) × (object ≤ most_objects) × (1 ≤ holder) × (holder ≤ most_jobs) }
    ensures { result ≡ holder_key_at (state_in parts.now) holder object }
{
    let i = (object - 1) as usize;
    let may_write = parts.may_write[i];
    let read_weight = more_urgent(ceiling(parts.counts, may_write), holder as u16);
    let written = write_weight(
        parts.counts,
        parts.certified,
        parts.may_read[i],
        may_write,
        object,
    );
    let reads = ranks::contains(parts.readers[i], holder);
    let writes = ranks::contains(parts.writers[i], holder);
    let read_key = key_if(reads, read_weight, holder, object);
    read_key.min(key_if(writes, written, holder, object))
}

// The lowest key among the holder's locks; no lock's where it has none, and for nobody, 0.
pub fn holder_key(parts: &Parts, holder: u8) -> u64
    requires { (parts.now.counts.objects ≤ most_objects) × (holder ≤ most_jobs) }
    ensures { result ≡ holder_key (state_in parts.now) holder }
{
    let locked = locked_by(parts, holder);
    let mut lowest = NO_KEY;
    for i in 0..locked.count {
        let key = own_key_at(parts, locked.objects[i], holder);
        lowest = lowest.min(key);
    }
    lowest
}

// The key by which a request of the rank is decided, by the most urgent holder and the lowest of its keys: no lock's where the rank is that holder.
pub fn key_against(holder: u8, key: u64, rank: u8) -> u64
    ensures { result ≡ key_against holder key rank }
{
    if holder == rank { NO_KEY } else { key }
}

// The same, by the locks; they are read only where the rank is not that holder.
pub fn deciding_key(parts: &Parts, rank: u8) -> u64
    requires { (parts.now.counts.objects ≤ most_objects) × (parts.now.holder ≤ most_jobs) }
    ensures { result ≡ deciding_key (state_in parts.now) rank }
{
    if parts.holder == rank {
        return NO_KEY;
    }
    holder_key(parts, parts.holder)
}

// The ranks whose most urgent one is what the holder's lock on the object weighs: of a read lock those declared to write the object, and the holder.
fn weighed_by(parts: &Parts, object: u8, holder: u8) -> RankSet
    requires { (1 ≤ object) × (object ≤ most_objects) × (1 ≤ holder) × (holder ≤ most_jobs) }
    ensures { result ≡ weighed_by (eqb parts.now.counts.version 1 || marked parts.now.certified.now object)
        (at parts.now.writers.now object) (at parts.now.may_read.now object) (at parts.now.may_write.now object) holder }
{
    let i = (object - 1) as usize;
    if ranks::contains(parts.writers[i], holder) {
        weighing(
            parts.counts.version,
            parts.certified,
            parts.may_read[i],
            parts.may_write[i],
            object,
        )
    } else {
        ranks::with(parts.may_write[i], holder)
    }
}

// Whether the rank is more urgent than the lock that the holder has on the object.
pub fn passes_lock(parts: &Parts, object: u8, holder: u8, rank: u8) -> bool
    requires { (1 ≤ object) × (object ≤ most_objects) × (1 ≤ holder) × (holder ≤ most_jobs) × (rank ≤ most_jobs) }
    ensures { result ≡ passes_lock parts.now.counts.version parts.now.may_read.now parts.now.may_write.now parts.now.writers.now parts.now.certified.now object holder rank }
{
    let set = weighed_by(parts, object, holder);
    ranks::is_empty(ranks::common(set, ranks::up_to(rank)))
}
