// Events taken from bytes and answered one after the other, their lines laid one behind the other.
#![tactic(auto)]

ghost use Rattle.std.specs.Prelude.{◌≡◌, ◌+◌, ◌*◌, ◌/◌, ◌^◌, ◌≤◌, ◌<◌, length};
ghost use Rattle.state.specs.Lent.{state_in_mut, SamePlaces};
ghost use Rattle.manager.specs.Step.{step};
ghost use Rattle.manager.specs.Keeping.{Tested};
ghost use Rattle.manager.specs.EventList.{state_after};
ghost use Rattle.lines.specs.Lines.{event_line};
ghost use Rattle.decimals.specs.Laid.{Laid};
ghost use Rattle.record.specs.Record.{event_lines};

use lines::lay_event;
use manager::{act_known, is_well_formed};
use state::PartsMut;

// An event on the parts of a state of which it is known whether it is well formed, in place, and its line laid at the index; answers the index behind it.
fn lay_answered(
    well: bool,
    state: &mut PartsMut,
    buf: &mut [u8],
    at: usize,
    number: u64,
    kind: u8,
    rank: u8,
    object: u8,
) -> usize
    requires { Tested well (state_in_mut state.old) × (at + 45 ≤ length buf.old) }
    ensures next { state_in_mut state.new ≡ (step (state_in_mut state.old) kind rank object).state }
    ensures line { Laid buf.old buf.new at result 45 (event_line state.old.counts.version number kind rank object (step (state_in_mut state.old) kind rank object).answer) }
    ensures same { SamePlaces state.old state.new }
{
    let version = state.counts.version;
    let answer = act_known(well, state, kind, rank, object);
    lay_event(buf, at, version, number, kind, rank, object, answer)
}

// The same, for all events in the bytes, with so many before them; one or two bytes left over are not looked at.
// Their lines are laid at the front of the buffer; answers the lines' length.
fn lay_each(well: bool, state: &mut PartsMut, buf: &mut [u8], events: u64, bytes: &[u8]) -> usize
    requires { Tested well (state_in_mut state.old) × (15 * length bytes.now ≤ length buf.old) × (events + length bytes.now / 3 < 2 ^ 64) }
    ensures next { state_in_mut state.new ≡ state_after (state_in_mut state.old) bytes.now }
    ensures lines { Laid buf.old buf.new 0 result (15 * length bytes.now) (event_lines (state_in_mut state.old) events bytes.now) }
    ensures same { SamePlaces state.old state.new }
{
    let mut end = 0;
    for i in 0..bytes.len() / 3 {
        let at = 3 * i;
        let number = events + i as u64 + 1;
        end = lay_answered(
            well,
            state,
            buf,
            end,
            number,
            bytes[at],
            bytes[at + 1],
            bytes[at + 2],
        );
    }
    end
}

// The events in the bytes, with so many before them, on the parts of a state, in place: the state is tested once. One or two bytes left over are not looked at.
// Their lines are laid at the front of the buffer; answers the lines' length.
pub fn lay_events(state: &mut PartsMut, buf: &mut [u8], events: u64, bytes: &[u8]) -> usize
    requires { (15 * length bytes.now ≤ length buf.old) × (events + length bytes.now / 3 < 2 ^ 64) }
    ensures next { state_in_mut state.new ≡ state_after (state_in_mut state.old) bytes.now }
    ensures lines { Laid buf.old buf.new 0 result (15 * length bytes.now) (event_lines (state_in_mut state.old) events bytes.now) }
    ensures same { SamePlaces state.old state.new }
{
    let well = is_well_formed(state);
    lay_each(well, state, buf, events, bytes)
}
