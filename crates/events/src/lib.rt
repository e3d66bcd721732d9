// Events in a well-formed state, on its parts, in place: one small function for each rule, with its refusals. And an answer packed into a number.
#![tactic(auto)]

ghost use Rattle.std.specs.Prelude.{◌≡◌, ◌≤◌};
ghost use Rattle.state.specs.State.{most_jobs, most_objects, certify, with_sleepers};
ghost use Rattle.state.specs.declared.State.{State};
ghost use Rattle.state.specs.Lent.{state_in_mut, SamePlaces};
ghost use Rattle.state.specs.Holders.{HolderFacts};
ghost use Rattle.refusals.specs.Accepting.{RequestsFit, InRange};
ghost use Rattle.events.specs.Answers.{answer_of};
ghost use Rattle.events.specs.Events as E;

mod packing;

use changes::{drop_marks, grant, holder_of, release, release_sets, store_request};
use one_holder::deciding_key;
pub use packing::pack;
use ranks::RankSet;
use refusals::{
    certify_refusal, finish_refusal, lock_refusal, set_of, sleep_refusal, start_refusal,
    unlock_refusal,
};
use state::{PartsMut, Refusal, State, mode_of_request, object_of_request, shares_with_none};

// An event's answer: granted; waits for the lock of a holder on an object, with the reason; done, with the woken rank or 0; refused, with its number.
#[derive(Clone, Copy)]
pub enum Answer {
    Granted,
    Waits { holder: u8, object: u8, reason: u8 },
    Done(u8),
    Refused(u8),
}

// An event's answer and the next state.
#[derive(Clone, Copy)]
pub struct Outcome {
    pub answer: Answer,
    pub state: State,
}

// Kind 1: the job becomes active.
fn start(state: &mut PartsMut, rank: u8, object: u8) -> Result<Answer, Refusal>
    requires { state.old.counts.jobs ≤ most_jobs }
    ensures next { E.outcome (answer_of result) (state_in_mut state.new) ≡ E.perform (state_in_mut state.old) 1 rank object }
    ensures same { SamePlaces state.old state.new }
{
    start_refusal(&state.read(), rank, object)?;
    *state.active = ranks::with(*state.active, rank);
    Ok(Answer::Done(0))
}

// A request that is not refused: the job gets the lock on the object in the mode, or waits for it.
fn grant_or_wait(state: &mut PartsMut, mode: u8, rank: u8, object: u8) -> Answer
    requires { (1 ≤ mode) × (mode ≤ certify) × (1 ≤ rank) × (rank ≤ most_jobs) × (1 ≤ object) × (object ≤ most_objects) × HolderFacts (state_in_mut state.old) }
    ensures next { E.outcome result (state_in_mut state.new) ≡ E.request (state_in_mut state.old) mode rank object }
    ensures same { SamePlaces state.old state.new }
{
    let parts = state.read();
    let key = deciding_key(&parts, rank);
    if rule::passes(rank, key) {
        grant(state, mode, rank, object);
        *state.holder = rank;
        return Answer::Granted;
    }
    let holder = weights::key_holder(key);
    let named = weights::key_object(key);
    let reason = rule::reason(
        parts.counts.version,
        mode,
        object,
        holder,
        named,
        shares_with_none(parts.counts.version, parts.certified, named),
        set_of(parts.writers, named),
        weights::ceiling(parts.counts, set_of(parts.may_write, named)),
    );
    store_request(state.request, rank, (mode as u16) * 256 + (object as u16));
    Answer::Waits {
        holder,
        object: named,
        reason,
    }
}

// Kinds 2 and 3: the job gets the lock, or waits for it.
fn lock(state: &mut PartsMut, kind: u8, rank: u8, object: u8) -> Result<Answer, Refusal>
    requires { (state.old.counts.jobs ≤ most_jobs) × (2 ≤ kind) × (kind ≤ 3) × HolderFacts (state_in_mut state.old) }
    ensures next { E.outcome (answer_of result) (state_in_mut state.new) ≡ E.perform (state_in_mut state.old) kind rank object }
    ensures same { SamePlaces state.old state.new }
{
    lock_refusal(&state.read(), kind, rank, object)?;
    Ok(grant_or_wait(state, kind - 1, rank, object))
}

// Kind 7: the job's write lock becomes a certify lock, or the job waits for that and keeps its write lock.
fn certify(state: &mut PartsMut, rank: u8, object: u8) -> Result<Answer, Refusal>
    requires { (state.old.counts.jobs ≤ most_jobs) × HolderFacts (state_in_mut state.old) }
    ensures next { E.outcome (answer_of result) (state_in_mut state.new) ≡ E.perform (state_in_mut state.old) 7 rank object }
    ensures same { SamePlaces state.old state.new }
{
    certify_refusal(&state.read(), rank, object)?;
    Ok(grant_or_wait(state, 3, rank, object))
}

// After kinds 4, 5 and 6: the most urgent waiting job whose request passes gets its lock.
fn wake(state: &mut PartsMut) -> Answer
    requires { (state.old.counts.jobs ≤ most_jobs) × RequestsFit state.old.request.now × HolderFacts (state_in_mut state.old) }
    ensures next { E.outcome result (state_in_mut state.new) ≡ E.wake (state_in_mut state.old) }
    ensures same { SamePlaces state.old state.new }
{
    let rank = rule::wakeable(&state.read());
    if rank != 0 {
        let asked = state.request[(rank - 1) as usize];
        grant(
            state,
            mode_of_request(asked),
            rank,
            object_of_request(asked),
        );
        *state.holder = rank;
    }
    Answer::Done(rank)
}

// Kind 4: the job gives up its read lock on the object, and is marked.
fn unlock(state: &mut PartsMut, rank: u8, object: u8) -> Result<Answer, Refusal>
    requires { InRange state.old.counts state.old.request.now × HolderFacts (state_in_mut state.old) }
    ensures next { E.outcome (answer_of result) (state_in_mut state.new) ≡ E.perform (state_in_mut state.old) 4 rank object }
    ensures same { SamePlaces state.old state.new }
{
    unlock_refusal(&state.read(), rank, object)?;
    release(state.unlocked, state.readers, rank, object);
    if *state.holder == rank {
        *state.holder = holder_of(state.readers, state.writers);
    }
    Ok(wake(state))
}

// The job's run ends, with its locks, its marks and its request.
fn end_run(state: &mut PartsMut, rank: u8) -> Answer
    requires { (state.old.counts.jobs ≤ most_jobs) × (1 ≤ rank) × (rank ≤ most_jobs) × RequestsFit state.old.request.now × HolderFacts (state_in_mut state.old) }
    ensures next { E.outcome result (state_in_mut state.new) ≡ E.finish (state_in_mut state.old) rank }
    ensures same { SamePlaces state.old state.new }
{
    *state.active = ranks::without(*state.active, rank);
    *state.unlocked = ranks::without(*state.unlocked, rank);
    *state.sleeping = ranks::without(*state.sleeping, rank);
    drop_marks(state.certified, state.writers, rank);
    let reading = release_sets(state.readers, rank);
    let writing = release_sets(state.writers, rank);
    *state.holder = ranks::most_urgent(ranks::union(reading, writing));
    store_request(state.request, rank, 0);
    wake(state)
}

// Kinds 5 and 6: the job's run ends; an abandonment also ends that of a waiting job.
fn finish(state: &mut PartsMut, kind: u8, rank: u8, object: u8) -> Result<Answer, Refusal>
    requires { InRange state.old.counts state.old.request.now × (5 ≤ kind) × (kind ≤ 6) × HolderFacts (state_in_mut state.old) }
    ensures next { E.outcome (answer_of result) (state_in_mut state.new) ≡ E.perform (state_in_mut state.old) kind rank object }
    ensures same { SamePlaces state.old state.new }
{
    finish_refusal(&state.read(), kind, rank, object)?;
    Ok(end_run(state, rank))
}

// An event of kind 8 or 9 that is not refused: the job falls asleep, or is awakened. No lock moves, and the waiting jobs are not searched.
fn sleep_or_awaken(sleeping: &mut RankSet, kind: u8, rank: u8) -> Answer
    requires { (1 ≤ rank) × (rank ≤ most_jobs) }
    ensures { (s : State) → s.sleeping ≡ sleeping.old → E.outcome result (with_sleepers s sleeping.new) ≡ E.sleep_or_awaken s kind rank }
{
    let asleep = *sleeping;
    if kind == 8 {
        *sleeping = ranks::with(asleep, rank);
    } else {
        *sleeping = ranks::without(asleep, rank);
    }
    Answer::Done(0)
}

// Kinds 8 and 9: the job falls asleep, or is awakened.
fn sleep(state: &mut PartsMut, kind: u8, rank: u8, object: u8) -> Result<Answer, Refusal>
    requires { (state.old.counts.jobs ≤ most_jobs) × (8 ≤ kind) × (kind ≤ 9) }
    ensures next { E.outcome (answer_of result) (state_in_mut state.new) ≡ E.perform (state_in_mut state.old) kind rank object }
    ensures same { SamePlaces state.old state.new }
{
    sleep_refusal(&state.read(), kind, rank, object)?;
    Ok(sleep_or_awaken(state.sleeping, kind, rank))
}

// The answer, refused or not.
fn answer_of(answered: Result<Answer, Refusal>) -> Answer
    ensures { result ≡ answer_of answered }
{
    match answered {
        Ok(answer) => answer,
        Err(refusal) => Answer::Refused(refusal.number()),
    }
}

// An event in a well-formed state: the rule of its kind; 9 where it has none.
pub fn perform(state: &mut PartsMut, kind: u8, rank: u8, object: u8) -> Answer
    requires { InRange state.old.counts state.old.request.now × HolderFacts (state_in_mut state.old) }
    ensures next { E.outcome result (state_in_mut state.new) ≡ E.perform (state_in_mut state.old) kind rank object }
    ensures same { SamePlaces state.old state.new }
{
    answer_of(match kind {
        1 => start(state, rank, object),
        2 | 3 => lock(state, kind, rank, object),
        4 => unlock(state, rank, object),
        5 | 6 => finish(state, kind, rank, object),
        7 => certify(state, rank, object),
        8 | 9 => sleep(state, kind, rank, object),
        0 | 10..=255 => Err(Refusal::NoSuchKind),
    })
}
