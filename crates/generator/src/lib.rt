// A test load from a seed: events made into a lent buffer, the same on every bench.
#![tactic(auto)]

ghost use Rattle.std.specs.Prelude.{◌≡◌, ◌+◌, ◌*◌, ◌%◌, ◌^◌, ◌≤◌, not, length};
ghost use Rattle.basics.specs.Loops.{one_if};
ghost use Rattle.state.specs.Clauses.{Within};
ghost use Rattle.state.specs.Lent.{state_in};
ghost use Rattle.decimals.specs.Laid.{Laid, at_front};
ghost use Rattle.generator.specs.Load as L;

use decimals::lay_three;
use state::{Counts, Parts, Refusal, State};
use well_formed::fits;

// Fills the front of the buffer with so many events, three bytes each, and leaves the rest; puts the seed from which the next go on into `seed`.
// Refused by 8 if the state is not well formed, then by 23 if the buffer is shorter than three times the count: buffer and seed are then untouched.
pub fn make_events(
    state: State,
    seed: &mut u32,
    count: usize,
    buf: &mut [u8],
) -> Result<(), Refusal>
    ensures { (L.made_of seed.new result ≡ L.make_events state seed.old count buf.old) × (buf.new ≡ L.events_made state seed.old count buf.old) }
{
    make_load(&state.parts(), seed, count, buf)
}

// The same on the parts of a state.
#[tactic(auto, unfolding(crate::specs::Load::load_refusal, crate::specs::Load::make_events, crate::specs::Load::events_made))]
pub fn make_load(parts: &Parts, seed: &mut u32, count: usize, buf: &mut [u8]) -> Result<(), Refusal>
    ensures { (L.made_of seed.new result ≡ L.make_events (state_in parts.now) seed.old count buf.old)
        × (buf.new ≡ L.events_made (state_in parts.now) seed.old count buf.old) }
{
    if !fits(parts) {
        return Err(Refusal::NotWellFormed);
    }
    if buf.len() / 3 < count {
        return Err(Refusal::LoadRoom);
    }
    *seed = lay_load(buf, parts.counts, count, *seed);
    Ok(())
}

// So many events from the seed laid into the front of the buffer, where they have room; answers the seed behind them.
#[tactic(auto, unfolding(crate::specs::Load::seed_after, crate::specs::Load::load))]
fn lay_load(buf: &mut [u8], counts: Counts, count: usize, seed: u32) -> u32
    requires { Within counts × (3 * count ≤ length buf.old) }
    ensures { (result ≡ L.seed_after count seed) × (buf.new ≡ at_front (L.load counts count seed) buf.old) }
{
    let mut next = seed;
    for made in 0..count {
        next = lay_event(buf, 3 * made, counts, next);
    }
    next
}

// The event from the seed laid from the index on; answers the seed behind it.
#[tactic(auto, unfolding(crate::specs::Load::event_from))]
fn lay_event(buf: &mut [u8], at: usize, counts: Counts, seed: u32) -> u32
    requires { Within counts × (at + 3 ≤ length buf.old) }
    ensures { (result ≡ L.step (L.step (L.step seed))) × Laid buf.old buf.new at (at + 3) 3 (L.event_from counts seed) }
{
    let first = step(seed);
    let second = step(first);
    let third = step(second);
    let kind = kind_from(drawn(first));
    let rank = rank_from(counts.jobs, drawn(second));
    let object = object_from(counts.objects, kind, drawn(third));
    lay_three(buf, at, kind, rank, object);
    third
}

// The kind of an event, from the first number that is drawn for it.
fn kind_from(first: u8) -> u8
    ensures { result ≡ L.kind_from first }
{
    1 + first % 6
}

// The rank of an event, from the second number.
fn rank_from(jobs: u8, second: u8) -> u8
    requires { 1 ≤ jobs }
    ensures { result ≡ L.rank_from jobs second }
{
    1 + second % jobs
}

// How many objects an event of the kind carries: none for kinds 1, 5 and 6, one for others.
fn objects_carried(kind: u8) -> u8
    ensures { result ≡ one_if (not (L.carries_none kind)) }
{
    let none = (kind == 1) | ((5 <= kind) & (kind <= 6));
    u8::from(!none)
}

// The object of an event of the kind, from the third number.
fn object_from(objects: u8, kind: u8, third: u8) -> u8
    requires { 1 ≤ objects }
    ensures { result ≡ L.object_from objects kind third }
{
    let carried = objects_carried(kind);
    carried + carried * third % objects
}

// The number that is drawn from a seed.
fn drawn(seed: u32) -> u8
    ensures { result ≡ L.drawn seed }
{
    (seed / 16777216) as u8
}

// What a seed steps to.
#[tactic(auto, unfolding(crate::specs::Load::step))]
fn step(seed: u32) -> u32
    ensures { result ≡ L.step seed }
{
    wrapping_multiply(1664525, seed).wrapping_add(1013904223)
}

// a times b, modulo 2^32.
fn wrapping_multiply(a: u32, b: u32) -> u32
    ensures { result ≡ (a * b) % 2 ^ 32 }
{
    (a as u64 * b as u64 % 4294967296) as u32
}
