// What refusal 8 asks of the holders among themselves: of two, the more urgent one is more urgent than every weight that the other holds.
ghost use Rattle.std.specs.Prelude.{◌≡◌, ◌+◌, ◌≤◌, ◌<◌};
ghost use Rattle.basics.specs.Arrays.{at};
ghost use Rattle.basics.specs.Loops.{every};
ghost use Rattle.ranks.specs.Ranks.{is_empty, but_first};
ghost use Rattle.state.specs.State.{most_objects};
ghost use Rattle.state.specs.Lent.{state_in};
ghost use Rattle.well_formed.specs.Survey.{block_size, in_blocks, reached, only_first, weighs_by, object_ordered};

use ranks::{EMPTY, RankSet, union};
use state::{Parts, Sets, union_of, weighing};

// Of the holders, those that a ceiling of the declared ranks reaches, but the most urgent of them: the ranks that may not hold a lock that weighs this ceiling.
fn reached_later(held: RankSet, declared: RankSet) -> RankSet
    ensures { result ≡ but_first (reached held declared) }
{
    ranks::but_first(ranks::minus(held, ranks::before(declared)))
}

// The ranks whose most urgent one is the ceiling that a lock on the object at an index weighs, a write lock or a read lock.
fn weighs_by<const WRITING: bool>(parts: &Parts, i: usize) -> RankSet
    requires { i < most_objects }
    ensures { result ≡ weighs_by WRITING (state_in parts.now) (i + 1) }
{
    if WRITING {
        weighing(
            parts.counts.version,
            parts.certified,
            parts.may_read[i],
            parts.may_write[i],
            (i + 1) as u8,
        )
    } else {
        parts.may_write[i]
    }
}

// Empty if the holders of these locks, write locks or read locks, on each object of the block from an index on are in order with all holders. They are looked
// at only where one of them is not the most urgent holder.
fn locks_wrong<const WRITING: bool>(
    parts: &Parts,
    locks: Sets,
    held: RankSet,
    from: usize,
) -> RankSet
    requires { from + block_size ≤ most_objects }
    ensures { is_empty result ≡ every block_size (λ k. only_first held (weighs_by WRITING (state_in parts.now) (from + k)) (at locks.entry.now (from + k))) }
{
    let later = ranks::but_first(held);
    if ranks::is_empty(ranks::common(union_of(locks, from, 8), later)) {
        return EMPTY;
    }
    let mut wrong = EMPTY;
    for k in 0..8 {
        let i = from + k;
        let reached = reached_later(held, weighs_by::<WRITING>(parts, i));
        wrong = union(wrong, ranks::common(locks[i], reached));
    }
    wrong
}

// Whether of two holders the more urgent one is more urgent than every weight that the other holds, by the set of all holders.
pub fn holders_in_order(parts: &Parts, held: RankSet) -> bool
    requires { parts.now.counts.objects ≤ most_objects }
    ensures { result ≡ every (in_blocks parts.now.counts.objects) (object_ordered held (state_in parts.now)) }
{
    if ranks::is_empty(ranks::but_first(held)) {
        return true;
    }
    let mut wrong = EMPTY;
    for block in 0..(parts.counts.objects as usize + 7) / 8 {
        let from = block * 8;
        let reading = locks_wrong::<false>(parts, parts.readers, held, from);
        let writing = locks_wrong::<true>(parts, parts.writers, held, from);
        wrong = union(wrong, union(reading, writing));
    }
    ranks::is_empty(wrong)
}
