// Inherited ranks, and the job that a processor runs. The lock that each rank names is worked out once and answers for all jobs and processors.
#![tactic(auto)]

ghost use Rattle.std.specs.Prelude.{◌≡◌, ◌≤◌};
ghost use Rattle.state.specs.State.{most_jobs};
ghost use Rattle.state.specs.Lent.{state_in};
ghost use Rattle.state.specs.Holders.{HolderFacts};
ghost use Rattle.weights.specs.Keys as K;
ghost use Rattle.inheritance.specs.Running as R;
ghost use Rattle.inheritance.specs.Inheriting as I;

use one_holder::{holder_key, key_against};
use ranks::RankSet;
use rule::named_key;
use state::{JobProcessors, JobRequests, Parts};
use weights::NO_KEY;

// A lock for each rank, by its key without the weight; 0 for no lock.
pub type JobLocks = [u16; 64];

// For each rank, the lock that it names; no lock where it does not wait or names nobody. The locks of the most urgent holder are read once.
pub fn named_locks(parts: &Parts) -> JobLocks
    requires { (parts.now.counts.jobs ≤ most_jobs) × HolderFacts (state_in parts.now) }
    ensures { I.NamedBy result (state_in parts.now) }
{
    let holder = parts.holder;
    let key = holder_key(parts, holder);
    let jobs = parts.counts.jobs;
    let mut named: JobLocks = [0; 64];
    for before in 0..jobs {
        let i = before as usize;
        let rank = before + 1;
        let lock = named_key(parts.request[i], key_against(holder, key, rank), rank);
        named[i] = (lock % 65536) as u16;
    }
    named
}

// The holder of the lock; 0 for no lock.
pub fn lock_holder(lock: u16) -> u8
    ensures { result ≡ K.key_holder lock }
{
    (lock / 256) as u8
}

// The object of the lock; 0 for no lock.
pub fn lock_object(lock: u16) -> u8
    ensures { result ≡ K.key_object lock }
{
    (lock % 256) as u8
}

// The other rank if it names the rank, else the rank.
fn heir(named: u8, rank: u8, other: u8) -> u8
    ensures { result ≡ I.heir named rank other }
{
    if named == rank { other } else { rank }
}

// The most urgent of the rank and of the ranks that name it, by the lock that each rank names.
pub fn inherited_by(jobs: u8, named: &JobLocks, rank: u8) -> u8
    requires { jobs ≤ most_jobs }
    ensures { result ≡ I.inherited_by jobs named.now rank }
{
    let mut inherited = rank;
    for before in 0..jobs {
        let holder = lock_holder(named[before as usize]);
        inherited = inherited.min(heir(holder, rank, before + 1));
    }
    inherited
}

// The most urgent of the rank and of the waiting ranks that name it.
pub fn inherited_rank(parts: &Parts, rank: u8) -> u8
    requires { (parts.now.counts.jobs ≤ most_jobs) × (1 ≤ rank) × HolderFacts (state_in parts.now) }
    ensures { result ≡ R.inherited_rank (state_in parts.now) rank }
{
    inherited_by(parts.counts.jobs, &named_locks(parts), rank)
}

// Whether the rank, with its own processor and request, is a job of the processor that is awake and isn't waiting.
fn is_ready(own: u8, processor: u8, awake: RankSet, request: u16, rank: u8) -> bool
    requires { (1 ≤ rank) × (rank ≤ most_jobs) }
    ensures { result ≡ I.ready_by own processor awake request rank }
{
    (own == processor) & ranks::contains(awake, rank) & (request == 0)
}

// The key that orders ready jobs by inherited rank; no lock's key for a job that isn't ready.
fn ready_key(jobs: u8, named: &JobLocks, ready: bool, rank: u8) -> u64
    requires { jobs ≤ most_jobs }
    ensures { result ≡ I.ready_key_by jobs named.now ready rank }
{
    if ready {
        (inherited_by(jobs, named, rank) as u64) * 256 + (rank as u64)
    } else {
        NO_KEY
    }
}

// The ready rank of the processor with the most urgent inherited rank, by the ranks that are awake and the lock that each rank names; 0 where none is ready.
pub fn running_by(
    jobs: u8,
    named: &JobLocks,
    processor_of: &JobProcessors,
    awake: RankSet,
    request: &JobRequests,
    processor: u8,
) -> u8
    requires { jobs ≤ most_jobs }
    ensures { result ≡ I.running_by jobs named.now processor_of.now awake request.now processor }
{
    let mut lowest = NO_KEY;
    for i in 0..usize::from(jobs) {
        let rank = (i + 1) as u8;
        let ready = is_ready(processor_of[i], processor, awake, request[i], rank);
        lowest = lowest.min(ready_key(jobs, named, ready, rank));
    }
    (lowest % 256) as u8
}

// The active rank of the processor that neither waits nor sleeps and has the most urgent inherited rank; 0 where the processor is idle.
pub fn running_rank(parts: &Parts, processor: u8) -> u8
    requires { (parts.now.counts.jobs ≤ most_jobs) × HolderFacts (state_in parts.now) }
    ensures { result ≡ R.running_rank (state_in parts.now) processor }
{
    let awake = ranks::minus(parts.active, parts.sleeping);
    running_by(
        parts.counts.jobs,
        &named_locks(parts),
        parts.processor_of,
        awake,
        parts.request,
        processor,
    )
}
