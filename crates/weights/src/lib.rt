// Ceilings, what a lock weighs, and the key that orders locks: the lock that stops a request has the lowest.
// A function sees the parts of a state that it asks about: an object's sets of ranks by value, an object's array by reference.
#![tactic(auto)]

ghost use Rattle.std.specs.Prelude.{◌≡◌, ◌||◌, ℕ, ◌≤◌, eqb};
ghost use Rattle.ranks.specs.Ranks.{first, union};
ghost use Rattle.state.specs.State.{most_jobs, most_objects, marked};
ghost use Rattle.state.specs.Weights as W;
ghost use Rattle.weights.specs.Keys as K;
ghost use Rattle.weights.specs.ObjectKeys as O;

use ranks::RankSet;
use state::{Counts, ObjectMarks, weighing};

// The key of no lock: above that of every lock, since its weight is above every weight.
pub const NO_KEY: u64 = 257 * 65536;

// The more urgent of two ranks or ceilings, without a branch: the top bit of `apart` is 1 where the first is at most the second, else 0.
pub fn more_urgent(a: u16, b: u16) -> u16
    ensures { result ≡ W.more_urgent a b }
{
    let first = a as u32;
    let second = b as u32;
    let apart = 0x8000_0000 + second - first;
    let is_first = apart >> 31;
    let is_second = (0xffff_ffff - apart) >> 31;
    (first * is_first + second * is_second) as u16
}

// Nobody as a set of ranks, to be put into another: the one rank past the last of the table. It is the most urgent there only where there is no other.
// With 64 jobs no set has that rank, and none is needed: the first rank of an empty set is past all, and that is nobody.
fn nobody(counts: Counts) -> RankSet
    ensures { (set : ℕ) → first most_jobs (union set result) ≡ W.ceiling_of counts set }
{
    if counts.jobs < 64 {
        ranks::with(ranks::EMPTY, counts.jobs + 1)
    } else {
        ranks::EMPTY
    }
}

// The most urgent rank of the set, and nobody where it has none.
pub fn ceiling(counts: Counts, set: RankSet) -> u16
    ensures { result ≡ W.ceiling_of counts set }
{
    ranks::first(ranks::union(set, nobody(counts))) as u16
}

// The key of a lock: ordered by weight, then holder, then object.
pub fn lock_key(weight: u16, holder: u8, object: u8) -> u64
    ensures { result ≡ K.lock_key weight holder object }
{
    (weight as u64) * 65536 + (holder as u64) * 256 + (object as u64)
}

// The holder of the lock with the key; 0 for no lock.
pub fn key_holder(key: u64) -> u8
    ensures { result ≡ K.key_holder key }
{
    (key / 256 % 256) as u8
}

// The object of the lock with the key; 0 for no lock.
pub fn key_object(key: u64) -> u8
    ensures { result ≡ K.key_object key }
{
    (key % 256) as u8
}

// What a write lock on the object weighs: the absolute ceiling where it shares with none, else the write ceiling.
pub fn write_weight(
    counts: Counts,
    certified: &ObjectMarks,
    may_read: RankSet,
    may_write: RankSet,
    object: u8,
) -> u16
    requires { (1 ≤ object) × (object ≤ most_objects) }
    ensures { result ≡ O.writers_weight counts (eqb counts.version 1 || marked certified.now object) may_read may_write }
{
    ceiling(
        counts,
        weighing(counts.version, certified, may_read, may_write, object),
    )
}
