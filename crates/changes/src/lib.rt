// Changes of a state's parts, in place: a lock given, locks given up, objects certified no more, a request stored.
#![tactic(auto)]

ghost use Rattle.std.specs.Prelude.{◌≡◌, ◌+◌, ◌≤◌};
ghost use Rattle.basics.specs.Arrays.{at, put};
ghost use Rattle.ranks.specs.Ranks as R;
ghost use Rattle.state.specs.Lent.{SamePlaces, state_in_mut};
ghost use Rattle.state.specs.State.{most_jobs, most_objects, with_locks, most_urgent_holder, mark, grant_readers, grant_writers, grant_marks, release_readers, release_sets, kept_in, drop_marks};

use ranks::RankSet;
use state::{JobRequests, ObjectMarks, PartsMut, Sets, SetsMut, union_of};

// Puts the object into the set.
#[tactic(auto, using(crate::proofs::Elements::changed), unfolding(state::specs::State::mark))]
fn mark_object(marks: &mut ObjectMarks, object: u8)
    requires { (1 ≤ object) × (object ≤ most_objects) }
    ensures { marks.new ≡ mark object marks.old }
{
    let i = object - 1;
    let word = (i / 64) as usize;
    marks[word] = ranks::with(marks[word], i % 64 + 1);
}

// Gives the rank its lock on the object, and ends its wait; a write lock replaces its read lock, a certify lock its write lock.
pub fn grant(state: &mut PartsMut, mode: u8, rank: u8, object: u8)
    requires { (1 ≤ rank) × (rank ≤ most_jobs) × (1 ≤ object) × (object ≤ most_objects) }
    ensures next { state_in_mut state.new ≡ with_locks (state_in_mut state.old)
        state.old.active.now state.old.unlocked.now state.old.sleeping.now state.old.holder.now
        (grant_readers mode rank object state.old.readers.now) (grant_writers mode rank object state.old.writers.now)
        (grant_marks mode object state.old.certified.now) (put state.old.request.now rank 0) }
    ensures same { SamePlaces state.old state.new }
{
    let i = (object - 1) as usize;
    let reading = state.readers[i];
    store_request(state.request, rank, 0);
    if mode == 1 {
        state.readers[i] = ranks::with(reading, rank);
    } else {
        let writing = state.writers[i];
        state.readers[i] = ranks::without(reading, rank);
        state.writers[i] = ranks::with(writing, rank);
        if mode == 3 {
            mark_object(state.certified, object);
        }
    }
}

// Takes the rank's read lock on the object away, and marks the rank as one that has unlocked.
pub fn release(unlocked: &mut RankSet, readers: SetsMut, rank: u8, object: u8)
    requires { (1 ≤ rank) × (rank ≤ most_jobs) × (1 ≤ object) × (object ≤ most_objects) }
    ensures { (unlocked.new ≡ R.with unlocked.old rank)
        × (readers.exit.now ≡ release_readers rank object readers.entry.now) }
{
    let i = (object - 1) as usize;
    *unlocked = ranks::with(*unlocked, rank);
    readers[i] = ranks::without(readers[i], rank);
}

// Takes the rank out of every set. The ranks that are left in them, all together.
pub fn release_sets(sets: SetsMut, rank: u8) -> RankSet
    requires { (1 ≤ rank) × (rank ≤ most_jobs) }
    ensures { (sets.exit.now ≡ release_sets rank sets.entry.now) × (result ≡ R.unions most_objects (λ o. R.without (at sets.entry.now o) rank)) }
{
    let mut left = ranks::EMPTY;
    for set in sets.iter_mut() {
        *set = ranks::without(*set, rank);
        left = ranks::union(left, *set);
    }
    left
}

// The most urgent rank that holds a lock, by the objects' readers and writers; 0 where none does.
pub fn holder_of<'a>(readers: Sets<'a>, writers: Sets<'a>) -> u8
    ensures { result ≡ most_urgent_holder readers.entry.now writers.entry.now }
{
    ranks::most_urgent(ranks::union(union_of(readers, 0, 128), union_of(writers, 0, 128)))
}

// What is left of a word of a set of objects, whose places stand behind an index, without the objects that the rank writes.
#[tactic(auto, using(ranks::specs::RankLaws::first_there, ranks::specs::RankLaws::first_pos))]
fn kept_in(writers: Sets, word: u64, from: usize, rank: u8) -> u64
    requires { (from + 64 ≤ most_objects) × (1 ≤ rank) × (rank ≤ most_jobs) }
    ensures { result ≡ kept_in rank writers.entry.now from 64 word }
{
    let mut kept = word;
    let mut rest = word;
    while !ranks::is_empty(rest) {
        let place = ranks::first(rest);
        let i = from + (place as usize) - 1;
        if ranks::contains(writers[i], rank) {
            kept = ranks::without(kept, place);
        }
        rest = ranks::without(rest, place);
    }
    kept
}

// Takes the objects that the rank writes out of the set.
#[tactic(auto, unfolding(state::specs::State::drop_marks))]
pub fn drop_marks(marks: &mut ObjectMarks, writers: Sets, rank: u8)
    requires { (1 ≤ rank) × (rank ≤ most_jobs) }
    ensures { marks.new ≡ drop_marks rank writers.entry.now marks.old }
{
    let low = kept_in(writers, marks[0], 0, rank);
    let high = kept_in(writers, marks[1], 64, rank);
    *marks = [low, high];
}

// Stores the rank's request.
pub fn store_request(requests: &mut JobRequests, rank: u8, request: u16)
    requires { (1 ≤ rank) × (rank ≤ most_jobs) }
    ensures { requests.new ≡ put requests.old rank request }
{
    let j = (rank - 1) as usize;
    requests[j] = request;
}
