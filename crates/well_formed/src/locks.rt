// What refusal 8 asks of the objects: those of the table in blocks of eight, and those outside it.
ghost use Rattle.std.specs.Prelude.{◌≡◌, ◌&&◌, ◌+◌, ◌-◌, ◌≤◌, eqb};
ghost use Rattle.basics.specs.Loops.{every};
ghost use Rattle.ranks.specs.Ranks.{is_empty, subset, unions};
ghost use Rattle.state.specs.State.{most_objects};
ghost use Rattle.state.specs.Lent.{state_in};
ghost use Rattle.well_formed.specs.Survey.{apart, block_size, object_in_order, all_of, Surveyed};

use ranks::{EMPTY, RankSet, union};
use state::{Parts, union_of};

// Of several objects together: the ranks declared, the ranks that hold a lock, and a set that is empty if each object by itself is in order.
#[derive(Clone, Copy)]
pub struct Survey {
    pub declared: RankSet,
    pub held: RankSet,
    pub wrong: RankSet,
}

// The ranks that hold a lock on an object without the right to it.
fn without_right(
    may_read: RankSet,
    may_write: RankSet,
    readers: RankSet,
    writers: RankSet,
) -> RankSet
    ensures { is_empty result ≡ (subset readers may_read && subset writers may_write) }
{
    union(
        ranks::minus(readers, may_read),
        ranks::minus(writers, may_write),
    )
}

// Empty if an object's write lock is alone, or, where it may be shared, if it is the only one and its holder does not read.
fn apart_wrong<const ALONE: bool>(readers: RankSet, writers: RankSet) -> RankSet
    ensures { is_empty result ≡ apart ALONE readers writers }
{
    if ALONE {
        union(
            ranks::minus(readers, ranks::less_one(writers)),
            ranks::common(writers, ranks::less_one(union(readers, writers))),
        )
    } else {
        union(
            ranks::common(readers, writers),
            ranks::common(writers, ranks::less_one(writers)),
        )
    }
}

// Empty if each object of the block from an index on is in order, where write locks are alone or may be shared.
fn block_wrong<const ALONE: bool>(parts: &Parts, from: usize) -> RankSet
    requires { from + block_size ≤ most_objects }
    ensures { is_empty result ≡ every block_size (λ k. object_in_order (state_in parts.now) ALONE (from + k)) }
{
    let mut wrong = EMPTY;
    for k in 0..8 {
        let i = from + k;
        let reading = parts.readers[i];
        let writing = parts.writers[i];
        let rights = without_right(parts.may_read[i], parts.may_write[i], reading, writing);
        wrong = union(wrong, union(rights, apart_wrong::<ALONE>(reading, writing)));
    }
    wrong
}

// What the objects of the table say together, where write locks are alone or may be shared. Locks are looked at in whole blocks, and one by one only where a
// block has some.
fn survey_by<const ALONE: bool>(parts: &Parts) -> Survey
    requires { parts.now.counts.objects ≤ most_objects }
    ensures { Surveyed (state_in parts.now) ALONE result }
{
    let count = parts.counts.objects as usize;
    let declared = union(
        union_of(parts.may_read, 0, count),
        union_of(parts.may_write, 0, count),
    );
    let mut held = EMPTY;
    let mut wrong = EMPTY;
    for block in 0..(count + 7) / 8 {
        let from = block * 8;
        let locks = union(
            union_of(parts.readers, from, 8),
            union_of(parts.writers, from, 8),
        );
        if !ranks::is_empty(locks) {
            held = union(held, locks);
            wrong = union(wrong, block_wrong::<ALONE>(parts, from));
        }
    }
    Survey {
        declared,
        held,
        wrong,
    }
}

// The same by the table's version: in version 1 write locks are alone.
pub fn survey_objects(parts: &Parts) -> Survey
    requires { parts.now.counts.objects ≤ most_objects }
    ensures { Surveyed (state_in parts.now) (eqb parts.now.counts.version 1) result }
{
    if parts.counts.version == 1 {
        survey_by::<true>(parts)
    } else {
        survey_by::<false>(parts)
    }
}

// The ranks in all sets of the objects outside the table.
pub fn union_outside(parts: &Parts) -> RankSet
    requires { parts.now.counts.objects ≤ most_objects }
    ensures { result ≡ unions (most_objects - parts.now.counts.objects) (λ k. all_of (state_in parts.now) (parts.now.counts.objects + k)) }
{
    let from = parts.counts.objects as usize;
    let mut all = EMPTY;
    for k in 0..128 - from {
        let i = from + k;
        let declared = union(parts.may_read[i], parts.may_write[i]);
        let held = union(parts.readers[i], parts.writers[i]);
        all = union(all, union(declared, held));
    }
    all
}
