// The rule of 1PI-RWPCP: whether a request passes, whom it names and why, the wake search.
#![tactic(auto)]

ghost use Rattle.std.specs.Prelude.{◌≡◌, ◌⊎◌, ◌+◌, ◌≤◌, ◌<◌};
ghost use Rattle.state.specs.State.{most_jobs};
ghost use Rattle.state.specs.Lent.{state_in};
ghost use Rattle.state.specs.Holders.{HolderFacts};
ghost use Rattle.rule.specs.Granting as G;
ghost use Rattle.rule.specs.WakeLaws.{not_counting, all_stopped, IdleTo, NextWaiting};

use one_holder::{locked_by, passes_lock};
use ranks::RankSet;
use state::{JobRequests, Parts, none_waits};
use weights::NO_KEY;

// Whether a request of the rank passes the lock with the key.
pub fn passes(rank: u8, key: u64) -> bool
    ensures { result ≡ G.passes_below rank key }
{
    (rank as u64) < key / 65536
}

// The key of the lock that the rank names while it has the request and meets the key; no lock's where it does not wait or its request passes.
pub fn named_key(request: u16, key: u64, rank: u8) -> u64
    ensures { result ≡ G.named_key_of request key rank }
{
    if request == 0 {
        return NO_KEY;
    }
    if passes(rank, key) { NO_KEY } else { key }
}

// Whether a request in the mode conflicts with a lock on its object, which is a write lock or not, and shares the object with none or not.
fn conflicts(version: u8, mode: u8, written: bool, alone: bool) -> bool
    requires { 1 ≤ mode }
    ensures { result ≡ G.conflicts version mode written alone }
{
    (mode - 1 == version) | (written & ((mode == 2) | alone))
}

// Why a request for the object in the mode waits for the lock that the holder has on the named object, whose writers and write ceiling are given, and
// whether a write lock there shares with none: 1 conflict, 3 cap, 2 ceiling.
pub fn reason(
    version: u8,
    mode: u8,
    object: u8,
    holder: u8,
    named: u8,
    alone: bool,
    writers: RankSet,
    write_ceiling: u16,
) -> u8
    requires { (1 ≤ mode) × (1 ≤ holder) × (holder ≤ most_jobs) }
    ensures { result ≡ G.reason_of version mode object holder named alone writers write_ceiling }
{
    let written = ranks::contains(writers, holder);
    if (named == object) & conflicts(version, mode, written, alone) {
        return 1;
    }
    if !written & ((holder as u16) < write_ceiling) {
        return 3;
    }
    2
}

// How many of so many locks of the holder do not count against the rank: all where it is the holder, since own locks don't count; else none.
fn not_counting(holder: u8, count: usize, rank: u8) -> usize
    ensures { result ≡ not_counting holder count rank }
{
    if holder == rank { count } else { 0 }
}

// Up to which rank a lock of the holder that stops the rank stops all that wait: those that are less urgent too, but for the holder.
fn all_stopped(holder: u8, rank: u8, jobs: u8) -> u8
    ensures { result ≡ all_stopped holder rank jobs }
{
    if (rank < holder) & (holder <= jobs) {
        holder - 1
    } else {
        jobs
    }
}

// How many ranks from an index on are passed over together: eight where a block begins there of which none waits, else none.
fn idle_ranks(request: &JobRequests, from: usize) -> usize
    requires { from < most_jobs }
    ensures { (result ≡ 0) ⊎ ((result ≡ 8) × (from + 8 ≤ most_jobs) × IdleTo request.now from (from + 8)) }
{
    if from % 8 != 0 {
        return 0;
    }
    if none_waits(request, from, 8) { 8 } else { 0 }
}

// The first waiting rank of the table behind the given one; 0 where there is none.
fn next_waiting(request: &JobRequests, rank: u8, jobs: u8) -> u8
    requires { (rank ≤ jobs) × (jobs ≤ most_jobs) }
    ensures { NextWaiting request.now rank jobs result }
{
    let last = jobs as usize;
    let mut i = rank as usize;
    while i < last {
        let idle = idle_ranks(request, i);
        if idle != 0 {
            i += idle;
        } else {
            if request[i] != 0 {
                return (i + 1) as u8;
            }
            i += 1;
        }
    }
    0
}

// The most urgent waiting rank whose request passes, and 0 where none does. The locks of the most urgent holder decide; which objects they are on
// is gathered once.
fn search(parts: &Parts) -> u8
    requires { (parts.now.counts.jobs ≤ most_jobs) × HolderFacts (state_in parts.now) }
    ensures { result ≡ G.wakeable (state_in parts.now) }
{
    let holder = parts.holder;
    let locked = locked_by(parts, holder);
    let mut rank: u8 = 0;
    'search: loop {
        rank = next_waiting(parts.request, rank, parts.counts.jobs);
        if rank == 0 {
            break 'search 0;
        }
        for done in not_counting(holder, locked.count, rank)..locked.count {
            let passed = passes_lock(parts, locked.objects[done], holder, rank);
            if !passed {
                rank = all_stopped(holder, rank, parts.counts.jobs);
                continue 'search;
            }
        }
        break 'search rank;
    }
}

// The same, without a look at the locks where nobody waits, or nobody who is more urgent than the most urgent holder, or it: its locks stop all others.
pub fn wakeable(parts: &Parts) -> u8
    requires { (parts.now.counts.jobs ≤ most_jobs) × HolderFacts (state_in parts.now) }
    ensures { result ≡ G.wakeable (state_in parts.now) }
{
    if none_waits(parts.request, 0, 64) {
        return 0;
    }
    let first = next_waiting(parts.request, 0, parts.counts.jobs);
    if (parts.holder != 0) & (parts.holder < first) {
        return 0;
    }
    search(parts)
}
