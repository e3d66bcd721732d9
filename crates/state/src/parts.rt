// Questions about single parts of a state: the set of a mode, the sets of several objects together, whether jobs wait.
ghost use Rattle.std.specs.Prelude.{◌≡◌, ◌+◌, ◌≤◌, eqb};
ghost use Rattle.basics.specs.Arrays.{at};
ghost use Rattle.basics.specs.Loops.{every};
ghost use Rattle.ranks.specs.Ranks.{unions};
ghost use Rattle.state.specs.State.{most_jobs, most_objects, of_mode};

use crate::{JobRequests, Sets};
use ranks::{EMPTY, RankSet, union};

// Of two sets, that of the mode: 1 read, 2 write, 3 certify.
pub fn of_mode(mode: u8, reading: RankSet, writing: RankSet) -> RankSet
    ensures { result ≡ of_mode mode reading writing }
{
    if mode == 1 { reading } else { writing }
}

// The ranks in so many sets, from an index on.
pub fn union_of(sets: Sets, from: usize, count: usize) -> RankSet
    requires { from + count ≤ most_objects }
    ensures { result ≡ unions count (λ k. at sets.entry.now (from + k)) }
{
    let mut all = EMPTY;
    for k in 0..count {
        all = union(all, sets[from + k]);
    }
    all
}

// Whether none of so many jobs, from an index on, waits.
pub fn none_waits(request: &JobRequests, from: usize, count: usize) -> bool
    requires { from + count ≤ most_jobs }
    ensures { result ≡ every count (λ k. eqb (at request.now (from + k)) 0) }
{
    let mut any = 0;
    for k in 0..count {
        any |= request[from + k];
    }
    any == 0
}
