// The refusals of events and questions, on the parts of a state. Comments name them by the papers' numbers.
#![tactic(auto)]

ghost use Rattle.std.specs.Prelude.{◌≡◌, true, not, ◌&&◌, min, ◌+◌, ◌-◌, ◌≤◌, eqb};
ghost use Rattle.basics.specs.Choice.{◌if◌else◌};
ghost use Rattle.basics.specs.Arrays.{at};
ghost use Rattle.basics.specs.Loops.{every};
ghost use Rattle.state.specs.State.{most_jobs, most_objects};
ghost use Rattle.state.specs.Lent.{state_in};
ghost use Rattle.state.specs.RefusalNumbers.{number, refusal_number};
ghost use Rattle.refusals.specs.Refusals as R;
ghost use Rattle.refusals.specs.Parts as P;

use ranks::RankSet;
use state::{Parts, Refusal, Sets, is_marked, of_mode, union_of, within};

// Refused for the reason, if the test holds; else the rest.
fn refused_if(reason: Refusal, test: bool, rest: Result<(), Refusal>) -> Result<(), Refusal>
    ensures { refusal_number result ≡ (number reason if test else refusal_number rest) }
{
    if test { Err(reason) } else { rest }
}

// The set of an object; the empty set for object 0.
pub fn set_of(sets: Sets, object: u8) -> RankSet
    requires { object ≤ most_objects }
    ensures { result ≡ at sets.entry.now object }
{
    if object == 0 {
        return ranks::EMPTY;
    }
    sets[(object - 1) as usize]
}

// 14 where the rank has a request that waits, 26 where it sleeps, if its kind is for a job that does neither.
fn ready_refusal(parts: &Parts, ready: bool, rank: u8) -> Result<(), Refusal>
    requires { (1 ≤ rank) × (rank ≤ most_jobs) }
    ensures { refusal_number result ≡ P.ready_refusal ready parts.now.request.now parts.now.sleeping rank }
{
    let waits = parts.request[(rank - 1) as usize] != 0;
    let sleeps = ranks::contains(parts.sleeping, rank);
    refused_if(
        Refusal::JobWaiting,
        ready & waits,
        refused_if(Refusal::JobAsleep, ready & sleeps, Ok(())),
    )
}

// 13 for an idle job, then what is found of its waiting and sleeping, if anything; else the rest.
#[tactic(auto, using(crate::specs::Reasons::first_refusal, crate::specs::Parts::ready_first))]
fn job_event_refusal(
    parts: &Parts,
    ready: bool,
    rank: u8,
    rest: Result<(), Refusal>,
) -> Result<(), Refusal>
    requires { (1 ≤ rank) × (rank ≤ most_jobs) }
    ensures { refusal_number result ≡ P.job_event_refusal (state_in parts.now) ready rank (refusal_number rest) }
{
    let not_ready = ready_refusal(parts, ready, rank);
    let active = ranks::contains(parts.active, rank);
    refused_if(Refusal::JobIdle, !active, not_ready.and(rest))
}

// 10 to 12, of a start.
#[tactic(auto, unfolding(crate::specs::Refusals::event_refusal))]
pub fn start_refusal(parts: &Parts, rank: u8, object: u8) -> Result<(), Refusal>
    requires { parts.now.counts.jobs ≤ most_jobs }
    ensures { refusal_number result ≡ R.event_refusal (state_in parts.now) 1 rank object }
{
    if !within(1, parts.counts.jobs, rank) {
        return Err(Refusal::NoSuchRank);
    }
    let active = ranks::contains(parts.active, rank);
    refused_if(
        Refusal::NoSuchObject,
        object != 0,
        refused_if(Refusal::JobActive, active, Ok(())),
    )
}

// 15 to 17, of a request for a lock in the mode on the object by the rank.
fn right_refusal(parts: &Parts, mode: u8, rank: u8, object: u8) -> Result<(), Refusal>
    requires { (1 ≤ rank) × (rank ≤ most_jobs) × (object ≤ most_objects) }
    ensures { refusal_number result
        ≡ P.right_refusal mode rank parts.now.unlocked (at parts.now.may_read.now object) (at parts.now.may_write.now object)
        (at parts.now.readers.now object) (at parts.now.writers.now object) }
{
    let declared = of_mode(
        mode,
        set_of(parts.may_read, object),
        set_of(parts.may_write, object),
    );
    let writers = set_of(parts.writers, object);
    let same = ranks::contains(of_mode(mode, set_of(parts.readers, object), writers), rank);
    let written = ranks::contains(writers, rank);
    let held = refused_if(Refusal::LockHeld, same | written, Ok(()));
    let no_right = refused_if(Refusal::NoRight, !ranks::contains(declared, rank), held);
    refused_if(
        Refusal::JobUnlocked,
        ranks::contains(parts.unlocked, rank),
        no_right,
    )
}

// 10, 11, 13 to 17 and 26, of a request for a lock: kind 2 to read, 3 to write.
#[tactic(auto, using(crate::specs::Parts::request_refusal))]
pub fn lock_refusal(parts: &Parts, kind: u8, rank: u8, object: u8) -> Result<(), Refusal>
    requires { (parts.now.counts.jobs ≤ most_jobs) × (parts.now.counts.objects ≤ most_objects) × (2 ≤ kind) × (kind ≤ 3) }
    ensures { refusal_number result ≡ R.event_refusal (state_in parts.now) kind rank object }
{
    if !within(1, parts.counts.jobs, rank) {
        return Err(Refusal::NoSuchRank);
    }
    if !within(1, parts.counts.objects, object) {
        return Err(Refusal::NoSuchObject);
    }
    job_event_refusal(
        parts,
        true,
        rank,
        right_refusal(parts, kind - 1, rank, object),
    )
}

// 10, 11, 13, 14, 18, 21 and 26, of an unlock.
#[tactic(auto, unfolding(crate::specs::Refusals::event_refusal))]
pub fn unlock_refusal(parts: &Parts, rank: u8, object: u8) -> Result<(), Refusal>
    requires { (parts.now.counts.jobs ≤ most_jobs) × (parts.now.counts.objects ≤ most_objects) }
    ensures { refusal_number result ≡ R.event_refusal (state_in parts.now) 4 rank object }
{
    if !within(1, parts.counts.jobs, rank) {
        return Err(Refusal::NoSuchRank);
    }
    if !within(1, parts.counts.objects, object) {
        return Err(Refusal::NoSuchObject);
    }
    let read = ranks::contains(set_of(parts.readers, object), rank);
    let written = ranks::contains(set_of(parts.writers, object), rank);
    let to_write = refused_if(Refusal::WriteLockHeld, written, Ok(()));
    let held = refused_if(Refusal::LockNotHeld, !(read | written), to_write);
    job_event_refusal(parts, true, rank, held)
}

// 9 to 11, 13 to 17, 24 and 26, of a request to certify, kind 7.
#[tactic(auto, unfolding(crate::specs::Refusals::event_refusal))]
pub fn certify_refusal(parts: &Parts, rank: u8, object: u8) -> Result<(), Refusal>
    requires { (parts.now.counts.jobs ≤ most_jobs) × (parts.now.counts.objects ≤ most_objects) }
    ensures { refusal_number result ≡ R.event_refusal (state_in parts.now) 7 rank object }
{
    if parts.counts.version == 1 {
        return Err(Refusal::NoSuchKind);
    }
    if !within(1, parts.counts.jobs, rank) {
        return Err(Refusal::NoSuchRank);
    }
    if !within(1, parts.counts.objects, object) {
        return Err(Refusal::NoSuchObject);
    }
    let written = ranks::contains(set_of(parts.writers, object), rank);
    let certified = is_marked(parts.certified, object);
    let not_written = refused_if(Refusal::NoWriteLock, !written, Ok(()));
    let held = refused_if(Refusal::LockHeld, written & certified, not_written);
    let right = ranks::contains(set_of(parts.may_write, object), rank);
    let no_right = refused_if(Refusal::NoRight, !right, held);
    let unlocked = ranks::contains(parts.unlocked, rank);
    job_event_refusal(
        parts,
        true,
        rank,
        refused_if(Refusal::JobUnlocked, unlocked, no_right),
    )
}

// Whether each object behind the first so many, up to the last, that the rank writes is certified.
fn certified_between(parts: &Parts, from: usize, last: usize, rank: u8) -> bool
    requires { (from ≤ last) × (last ≤ most_objects) × (1 ≤ rank) × (rank ≤ most_jobs) }
    ensures { result ≡ every (last - from) (λ k. P.written_well parts.now.writers.now parts.now.certified.now rank (from + k)) }
{
    (from..last).all(|i| {
        !ranks::contains(parts.writers[i], rank) | is_marked(parts.certified, (i + 1) as u8)
    })
}

// Whether each of eight objects behind the first so many, those of the table, that the rank writes is certified. Their writers are looked at together,
// and one by one only where the rank is among them.
fn eight_certified(parts: &Parts, from: usize, rank: u8) -> bool
    requires { (from ≤ parts.now.counts.objects) × (parts.now.counts.objects ≤ most_objects) × (from + 8 ≤ most_objects) × (1 ≤ rank) × (rank ≤ most_jobs) }
    ensures { result ≡ every (min (from + 8) parts.now.counts.objects - from) (λ k. P.written_well parts.now.writers.now parts.now.certified.now rank (from + k)) }
{
    let together = union_of(parts.writers, from, 8);
    let last = (from + 8).min(parts.counts.objects as usize);
    !ranks::contains(together, rank) || certified_between(parts, from, last, rank)
}

// Whether each object that the rank writes is certified.
fn all_certified(parts: &Parts, rank: u8) -> bool
    requires { (parts.now.counts.objects ≤ most_objects) × (1 ≤ rank) × (rank ≤ most_jobs) }
    ensures { result ≡ every parts.now.counts.objects (P.written_well parts.now.writers.now parts.now.certified.now rank) }
{
    for from in (0..parts.counts.objects as usize).step_by(8) {
        if !eight_certified(parts, from, rank) {
            return false;
        }
    }
    true
}

// 25 where the version has certify locks and the rank, at a finish, a write lock that is not certified.
#[tactic(auto, using(crate::specs::Parts::certify_first_none, crate::specs::Parts::certify_first_some))]
fn certify_first(parts: &Parts, kind: u8, rank: u8) -> Result<(), Refusal>
    requires { (parts.now.counts.objects ≤ most_objects) × (1 ≤ rank) × (rank ≤ most_jobs) }
    ensures { refusal_number result ≡ (25 if eqb kind 5 && not (R.all_certified (state_in parts.now) rank) else 0) }
{
    if (parts.counts.version == 1) | (kind != 5) {
        return Ok(());
    }
    refused_if(Refusal::NotCertified, !all_certified(parts, rank), Ok(()))
}

// 10, 11, 13, 14, 25 and 26, of kind 5, a finish, or kind 6, an abandonment.
#[tactic(auto, using(crate::specs::Parts::finish_refusal_lem))]
pub fn finish_refusal(parts: &Parts, kind: u8, rank: u8, object: u8) -> Result<(), Refusal>
    requires { (parts.now.counts.jobs ≤ most_jobs) × (parts.now.counts.objects ≤ most_objects) × (5 ≤ kind) × (kind ≤ 6) }
    ensures { refusal_number result ≡ R.event_refusal (state_in parts.now) kind rank object }
{
    if !within(1, parts.counts.jobs, rank) {
        return Err(Refusal::NoSuchRank);
    }
    let not_certified = certify_first(parts, kind, rank);
    let job = job_event_refusal(parts, kind == 5, rank, not_certified);
    refused_if(Refusal::NoSuchObject, object != 0, job)
}

// 10, 11, 13, 14, 26 and 27, of kind 8, a job that falls asleep, or kind 9, one that is awakened.
#[tactic(auto, using(crate::specs::Parts::sleep_refusal_lem))]
pub fn sleep_refusal(parts: &Parts, kind: u8, rank: u8, object: u8) -> Result<(), Refusal>
    requires { (parts.now.counts.jobs ≤ most_jobs) × (8 ≤ kind) × (kind ≤ 9) }
    ensures { refusal_number result ≡ R.event_refusal (state_in parts.now) kind rank object }
{
    if !within(1, parts.counts.jobs, rank) {
        return Err(Refusal::NoSuchRank);
    }
    let awake = !ranks::contains(parts.sleeping, rank);
    let not_asleep = refused_if(Refusal::JobAwake, (kind == 9) & awake, Ok(()));
    let job = job_event_refusal(parts, kind == 8, rank, not_asleep);
    refused_if(Refusal::NoSuchObject, object != 0, job)
}

// 8, 10 and 13, of a question for a job in a state that is well formed or not.
pub fn job_refusal(well: bool, jobs: u8, active: RankSet, rank: u8) -> Result<(), Refusal>
    requires { well ≡ true → jobs ≤ most_jobs }
    ensures { refusal_number result ≡ R.job_refusal_of well jobs active rank }
{
    if !well {
        return Err(Refusal::NotWellFormed);
    }
    if !within(1, jobs, rank) {
        return Err(Refusal::NoSuchRank);
    }
    refused_if(Refusal::JobIdle, !ranks::contains(active, rank), Ok(()))
}

// 8 and 11, of a question for an object in a state that is well formed or not.
pub fn object_refusal(well: bool, objects: u8, object: u8) -> Result<(), Refusal>
    ensures { refusal_number result ≡ R.object_refusal_of well objects object }
{
    let unknown = !within(1, objects, object);
    refused_if(
        Refusal::NotWellFormed,
        !well,
        refused_if(Refusal::NoSuchObject, unknown, Ok(())),
    )
}

// 8 and 19, of a question for a processor in a state that is well formed or not.
pub fn processor_refusal(well: bool, processors: u8, processor: u8) -> Result<(), Refusal>
    ensures { refusal_number result ≡ R.processor_refusal_of well processors processor }
{
    let unknown = !(processor < processors);
    refused_if(
        Refusal::NotWellFormed,
        !well,
        refused_if(Refusal::NoSuchProcessor, unknown, Ok(())),
    )
}
