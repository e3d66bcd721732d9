// Sets of objects: whether an object is in one, and what follows for a lock on it.
ghost use Rattle.std.specs.Prelude.{◌≡◌, ◌||◌, ◌≤◌, eqb};
ghost use Rattle.state.specs.State.{most_objects, marked};
ghost use Rattle.state.specs.WeightLaws.{weighing_of};

use crate::ObjectMarks;
use ranks::{RankSet, union};

// Whether the object is in the set.
pub fn is_marked(marks: &ObjectMarks, object: u8) -> bool
    requires { (1 ≤ object) × (object ≤ most_objects) }
    ensures { result ≡ marked marks.now object }
{
    let i = object - 1;
    ranks::contains(marks[(i / 64) as usize], i % 64 + 1)
}

// Whether a write lock on the object, in a table of this version with these certified objects, shares the object with no other.
pub fn shares_with_none(version: u8, certified: &ObjectMarks, object: u8) -> bool
    requires { (1 ≤ object) × (object ≤ most_objects) }
    ensures { result ≡ (eqb version 1 || marked certified.now object) }
{
    (version == 1) | is_marked(certified, object)
}

// The ranks whose most urgent one is what a write lock on the object weighs: those declared to write it, and to read it too where the lock shares with none.
pub fn weighing(
    version: u8,
    certified: &ObjectMarks,
    may_read: RankSet,
    may_write: RankSet,
    object: u8,
) -> RankSet
    requires { (1 ≤ object) × (object ≤ most_objects) }
    ensures { result ≡ weighing_of (eqb version 1 || marked certified.now object) may_read may_write }
{
    if shares_with_none(version, certified, object) {
        union(may_read, may_write)
    } else {
        may_write
    }
}
