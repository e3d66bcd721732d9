// The lock manager: an event on a state, by value and in place, and a list of events in place.
#![tactic(auto)]

ghost use Rattle.std.specs.Prelude.{◌≡◌, true, ◌++◌, ◌*◌, ◌≤◌, length, drop};
ghost use Rattle.std.proofs.lemmas.List.Edits.{sets};
ghost use Rattle.state.specs.Lent.{state_in_mut, SamePlaces};
ghost use Rattle.state.specs.Facts.{Sized};
ghost use Rattle.events.specs.Answers.{paper};
ghost use Rattle.events.specs.Packing.{packed, unpacked};
ghost use Rattle.events.specs.Events.{outcome};
ghost use Rattle.manager.specs.Step.{step};
ghost use Rattle.manager.specs.Keeping.{Tested};
ghost use Rattle.manager.specs.EventList.{state_after, answers_to, event_count, whole_events};

use events::{Answer, Outcome, pack, perform};
use state::{PartsMut, Refusal, State};
use well_formed::fits_sized;

// An event in a state that is known to be well formed: what is refused or done by its kind's rule. The next state is well formed too (manager/specs/Keeping).
pub fn act_tested(state: &mut PartsMut, kind: u8, rank: u8, object: u8) -> Answer
    requires { Tested true (state_in_mut state.old) }
    ensures next { outcome result (state_in_mut state.new) ≡ step (state_in_mut state.old) kind rank object }
    ensures same { SamePlaces state.old state.new }
{
    perform(state, kind, rank, object)
}

// An event in a state of which it is known whether it is well formed: refused by 8 and nothing changed where it is not.
pub fn act_known(well: bool, state: &mut PartsMut, kind: u8, rank: u8, object: u8) -> Answer
    requires { Tested well (state_in_mut state.old) }
    ensures next { outcome result (state_in_mut state.new) ≡ step (state_in_mut state.old) kind rank object }
    ensures same { SamePlaces state.old state.new }
{
    if !well {
        return Answer::Refused(Refusal::NotWellFormed.number());
    }
    act_tested(state, kind, rank, object)
}

// The same, with the answer packed into a number that can be taken apart again.
pub fn act_packed(well: bool, state: &mut PartsMut, kind: u8, rank: u8, object: u8) -> u32
    requires { Tested well (state_in_mut state.old) }
    ensures answer { result ≡ packed (step (state_in_mut state.old) kind rank object).answer }
    ensures apart { unpacked result ≡ paper (step (state_in_mut state.old) kind rank object).answer }
    ensures next { state_in_mut state.new ≡ (step (state_in_mut state.old) kind rank object).state }
    ensures same { SamePlaces state.old state.new }
{
    pack(act_known(well, state, kind, rank, object))
}

// Whether the state with the parts is well formed, as `act_known` is to be told. In a frame of its own, which is gone when the event is answered.
#[inline(never)]
pub fn is_well_formed(state: &PartsMut) -> bool
    ensures { Tested result (state_in_mut state.now) }
{
    fits_sized(&state.read())
}

// An event in any state: the test of the state, then the event.
pub fn act(state: &mut PartsMut, kind: u8, rank: u8, object: u8) -> Answer
    ensures next { outcome result (state_in_mut state.new) ≡ step (state_in_mut state.old) kind rank object }
    ensures sized { Sized (state_in_mut state.old) }
    ensures same { SamePlaces state.old state.new }
{
    let well = is_well_formed(state);
    act_known(well, state, kind, rank, object)
}

// The events in the bytes, one after the other, in a state of which it is known whether it is well formed, their packed answers at the front of the list.
// One or two bytes left over are not looked at.
fn answer_each(well: bool, state: &mut PartsMut, events: &[u8], answers: &mut [u32])
    requires { Tested well (state_in_mut state.old) × (length events.now ≤ 3 * length answers.old) }
    ensures answers { answers.new ≡ sets answers.old 0 (answers_to (state_in_mut state.old) events.now) }
    ensures state { state_in_mut state.new ≡ state_after (state_in_mut state.old) events.now }
    ensures same { SamePlaces state.old state.new }
{
    for i in 0..events.len() / 3 {
        let at = 3 * i;
        answers[i] = act_packed(well, state, events[at], events[at + 1], events[at + 2]);
    }
}

// The events in the bytes, one after the other, as many as the bytes and the list of answers both hold whole: the same answers, packed, and the same state
// as by `act` for each, but the state is tested once. The answers behind them stay. Answers how many events there were.
pub fn act_each(state: &mut PartsMut, events: &[u8], answers: &mut [u32]) -> usize
    ensures number { result ≡ event_count events.now answers.old }
    ensures answers { answers.new ≡ answers_to (state_in_mut state.old) (whole_events events.now answers.old) ++ drop (event_count events.now answers.old) answers.old }
    ensures state { state_in_mut state.new ≡ state_after (state_in_mut state.old) (whole_events events.now answers.old) }
    ensures same { SamePlaces state.old state.new }
{
    let count = (events.len() / 3).min(answers.len());
    let well = is_well_formed(state);
    answer_each(well, state, &events[..3 * count], answers);
    count
}

// An event: its answer and the next state; a refusal returns the state handed in.
pub fn event(state: State, kind: u8, rank: u8, object: u8) -> Outcome
    ensures { (result ≡ step state kind rank object) × Sized state }
{
    let mut next = state;
    let mut parts = PartsMut {
        counts: next.counts,
        processor_of: &next.processor_of,
        may_read: &next.may_read,
        may_write: &next.may_write,
        active: &mut next.active,
        unlocked: &mut next.unlocked,
        sleeping: &mut next.sleeping,
        holder: &mut next.holder,
        readers: &mut next.readers,
        writers: &mut next.writers,
        certified: &mut next.certified,
        request: &mut next.request,
    };
    let answer = act(&mut parts, kind, rank, object);
    Outcome {
        answer,
        state: next,
    }
}
