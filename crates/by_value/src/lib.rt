// Events answered by `event` on a state by value, one after the other, so that a C program can time that call.
#![tactic(auto)]

ghost use Rattle.std.specs.Prelude.{◌≡◌};
ghost use Rattle.table.specs.Reading.{read_table};
ghost use Rattle.by_value.specs.Mixing.{mixed};

use events::pack;
use manager::event;
use state::State;
use table::read_table;

// The table's state, the one whose numbers are all 0 if the table is refused.
fn start(table: &[u8]) -> State
    ensures { result ≡ (read_table table.now).state }
{
    read_table(table).state
}

// The answers to the events in the bytes, from the table's state, mixed into one number. One or two bytes left over are not looked at.
// From the state of a refused table every answer is a refusal.
#[unsafe(no_mangle)]
pub extern "C" fn by_value_answers<'a>(table: &'a [u8], events: &'a [u8]) -> u32
    ensures { result ≡ mixed (read_table table.now).state 0 events.now }
{
    let mut state = start(table);
    let mut answers = 0;
    for i in 0..events.len() / 3 {
        let at = 3 * i;
        let outcome = event(state, events[at], events[at + 1], events[at + 2]);
        answers ^= pack(outcome.answer);
        state = outcome.state;
    }
    answers
}
