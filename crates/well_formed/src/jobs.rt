// What refusal 8 asks of the jobs: their processors, and what they wait for.
ghost use Rattle.std.specs.Prelude.{◌≡◌, ◌+◌, ◌≤◌, ◌<◌};
ghost use Rattle.basics.specs.Loops.{every};
ghost use Rattle.state.specs.State.{most_jobs, most_objects, mode_of_request, object_of_request};
ghost use Rattle.state.specs.Lent.{state_in};
ghost use Rattle.state.specs.WellFormed.{processors_fit, may_await, wait_fits, waits_fit};
ghost use Rattle.well_formed.specs.Survey.{may_ask, with_marked};

use ranks::RankSet;
use state::{Parts, is_marked, mode_of_request, none_waits, object_of_request, of_mode, within};

// Whether each job's processor is one of the table's.
pub fn processors_fit(parts: &Parts) -> bool
    requires { (1 ≤ parts.now.counts.processors) × (parts.now.counts.jobs ≤ most_jobs) }
    ensures { result ≡ processors_fit (state_in parts.now) }
{
    let mut last: u8 = 0;
    for i in 0..parts.counts.jobs as usize {
        last = last.max(parts.processor_of[i]);
    }
    last < parts.counts.processors
}

// Whether a rank may ask for an object with these sets in a mode: it has the right, neither that lock nor the write lock, and to certify the write lock alone.
fn may_ask(
    mode: u8,
    rank: u8,
    may_read: RankSet,
    may_write: RankSet,
    readers: RankSet,
    writers: RankSet,
    certified: bool,
) -> bool
    requires { (1 ≤ rank) × (rank ≤ most_jobs) }
    ensures { result ≡ may_ask mode rank may_read may_write readers writers certified }
{
    let right = ranks::contains(of_mode(mode, may_read, may_write), rank);
    let written = ranks::contains(writers, rank);
    if mode == 3 {
        return right & written & !certified;
    }
    right & !(ranks::contains(of_mode(mode, readers, writers), rank) | written)
}

// Whether a rank may be waiting for the request: a lock of one of the version's modes on an object of the table that it may ask for, in a run that is not among
// those marked.
fn may_await(parts: &Parts, marked: RankSet, request: u16, rank: u8) -> bool
    requires { (parts.now.counts.version ≤ 2) × (parts.now.counts.objects ≤ most_objects) × (1 ≤ rank) × (rank ≤ most_jobs) }
    ensures { result ≡ may_await (with_marked (state_in parts.now) marked) (mode_of_request request) rank (object_of_request request) }
{
    let mode = mode_of_request(request);
    let object = object_of_request(request);
    if !(within(1, parts.counts.version + 1, mode) & within(1, parts.counts.objects, object)) {
        return false;
    }
    let i = (object - 1) as usize;
    ranks::contains(parts.active, rank)
        & !ranks::contains(marked, rank)
        & may_ask(
            mode,
            rank,
            parts.may_read[i],
            parts.may_write[i],
            parts.readers[i],
            parts.writers[i],
            is_marked(parts.certified, object),
        )
}

// Whether the job at an index may be waiting for its request, if it has one.
fn wait_fits(parts: &Parts, marked: RankSet, index: usize) -> bool
    requires { (parts.now.counts.version ≤ 2) × (parts.now.counts.objects ≤ most_objects) × (index < most_jobs) }
    ensures { result ≡ wait_fits (with_marked (state_in parts.now) marked) (index + 1) }
{
    let asked = parts.request[index];
    asked == 0 || may_await(parts, marked, asked, (index + 1) as u8)
}

// Whether each of the four jobs from an index on may be waiting for its request, if it has one.
fn four_fit(parts: &Parts, marked: RankSet, from: usize) -> bool
    requires { (parts.now.counts.version ≤ 2) × (parts.now.counts.objects ≤ most_objects) × (from + 4 ≤ most_jobs) }
    ensures { result ≡ every 4 (λ k. wait_fits (with_marked (state_in parts.now) marked) (from + k)) }
{
    if none_waits(parts.request, from, 4) {
        return true;
    }
    for k in 0..4 {
        if !wait_fits(parts, marked, from + k) {
            return false;
        }
    }
    true
}

// Whether each waiting job may be waiting for its request, and is not among those marked.
pub fn waits_fit(parts: &Parts, marked: RankSet) -> bool
    requires { (parts.now.counts.version ≤ 2) × (parts.now.counts.objects ≤ most_objects) }
    ensures { result ≡ waits_fit (with_marked (state_in parts.now) marked) }
{
    if none_waits(parts.request, 0, 64) {
        return true;
    }
    for four in 0..16 {
        if !four_fit(parts, marked, four * 4) {
            return false;
        }
    }
    true
}
