// The questions on a state: a job's inherited rank and named lock, an object's ceilings, the rank that a processor runs.
#![tactic(auto)]

ghost use Rattle.std.specs.Prelude.{◌≡◌};
ghost use Rattle.state.specs.Facts.{Sized};
ghost use Rattle.questions.specs.Answers.{rank_of, named_of, ceilings_of};
ghost use Rattle.questions.specs.Questions as Q;

mod parts;

pub use parts::{
    Ceilings, NamedLock, ask_ceilings, ask_inherited_rank, ask_named_lock, ask_running,
};
use state::{Refusal, State};

// A job's inherited rank. Refused by 8, 10, 13.
pub fn inherited_rank(state: State, rank: u8) -> Result<u8, Refusal>
    ensures { (rank_of result ≡ Q.ask_inherited_rank state rank) × Sized state }
{
    ask_inherited_rank(&state.parts(), rank)
}

// The lock that a job names. Refused by 8, 10, 13.
pub fn named_lock(state: State, rank: u8) -> Result<NamedLock, Refusal>
    ensures { (named_of result ≡ Q.ask_named_lock state rank) × Sized state }
{
    ask_named_lock(&state.parts(), rank)
}

// An object's two ceilings. Refused by 8, 11.
pub fn ceilings(state: State, object: u8) -> Result<Ceilings, Refusal>
    ensures { (ceilings_of result ≡ Q.ask_ceilings state object) × Sized state }
{
    ask_ceilings(&state.parts(), object)
}

// The rank that a processor runs. Refused by 8, 19.
pub fn running(state: State, processor: u8) -> Result<u8, Refusal>
    ensures { (rank_of result ≡ Q.ask_running state processor) × Sized state }
{
    ask_running(&state.parts(), processor)
}
