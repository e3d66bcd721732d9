// The questions, on the parts of a state.
ghost use Rattle.std.specs.Prelude.{◌≡◌};
ghost use Rattle.state.specs.Lent.{state_in};
ghost use Rattle.questions.specs.Answers.{rank_of, named_of, ceilings_of};
ghost use Rattle.questions.specs.Questions as Q;

use one_holder::deciding_key;
use refusals::{job_refusal, object_refusal, processor_refusal, set_of};
use state::{Parts, Refusal};
use well_formed::fits_sized;

// The lock that a job names: its holder and object, 0 and 0 if it names nobody.
#[derive(Clone, Copy)]
pub struct NamedLock {
    pub holder: u8,
    pub object: u8,
}

// An object's write ceiling and absolute ceiling.
#[derive(Clone, Copy)]
pub struct Ceilings {
    pub write: u16,
    pub absolute: u16,
}

// A job's inherited rank: the most urgent of its own and those of the waiting jobs that name it.
#[tactic(auto, unfolding(crate::specs::Questions::ask_inherited_rank, refusals::specs::Refusals::job_refusal))]
pub fn ask_inherited_rank(parts: &Parts, rank: u8) -> Result<u8, Refusal>
    ensures { rank_of result ≡ Q.ask_inherited_rank (state_in parts.now) rank }
{
    job_refusal(fits_sized(parts), parts.counts.jobs, parts.active, rank)?;
    Ok(inheritance::inherited_rank(parts, rank))
}

// The lock that a job names.
#[tactic(auto, unfolding(crate::specs::Questions::ask_named_lock, refusals::specs::Refusals::job_refusal))]
pub fn ask_named_lock(parts: &Parts, rank: u8) -> Result<NamedLock, Refusal>
    ensures { named_of result ≡ Q.ask_named_lock (state_in parts.now) rank }
{
    job_refusal(fits_sized(parts), parts.counts.jobs, parts.active, rank)?;
    let key = deciding_key(parts, rank);
    let named = rule::named_key(parts.request[(rank - 1) as usize], key, rank);
    Ok(NamedLock {
        holder: weights::key_holder(named),
        object: weights::key_object(named),
    })
}

// The two ceilings of an object.
#[tactic(auto, unfolding(crate::specs::Questions::ask_ceilings, refusals::specs::Refusals::object_refusal))]
pub fn ask_ceilings(parts: &Parts, object: u8) -> Result<Ceilings, Refusal>
    ensures { ceilings_of result ≡ Q.ask_ceilings (state_in parts.now) object }
{
    object_refusal(fits_sized(parts), parts.counts.objects, object)?;
    let write = set_of(parts.may_write, object);
    let either = ranks::union(set_of(parts.may_read, object), write);
    Ok(Ceilings {
        write: weights::ceiling(parts.counts, write),
        absolute: weights::ceiling(parts.counts, either),
    })
}

// The rank that a processor runs, 0 if it is idle.
#[tactic(auto, unfolding(crate::specs::Questions::ask_running, refusals::specs::Refusals::processor_refusal))]
pub fn ask_running(parts: &Parts, processor: u8) -> Result<u8, Refusal>
    ensures { rank_of result ≡ Q.ask_running (state_in parts.now) processor }
{
    processor_refusal(fits_sized(parts), parts.counts.processors, processor)?;
    Ok(inheritance::running_rank(parts, processor))
}
