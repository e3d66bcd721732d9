// A state's table written into a lent buffer.
#![tactic(auto)]

ghost use Rattle.std.specs.Prelude.{◌≡◌};
ghost use Rattle.state.specs.Facts.{Sized};
ghost use Rattle.state.specs.RefusalNumbers.{length_reply};
ghost use Rattle.table_writer.specs.Writing.{write_table, written};

mod count;
mod lay;

use count::entry_count;
use lay::lay_table;
use state::{Refusal, State};
use well_formed::is_well_formed;

// Lays the state's table into the front of the buffer and leaves the rest; answers the table's length.
// Refused by 8 if the state is not well formed, then by 20 if the buffer is shorter than the table: the buffer is then untouched.
pub fn write_table(state: State, buf: &mut [u8]) -> Result<usize, Refusal>
    ensures { (length_reply result ≡ write_table state buf.old) × (buf.new ≡ written state buf.old) × Sized state }
{
    if !is_well_formed(state) {
        return Err(Refusal::NotWellFormed);
    }
    let parts = state.parts();
    let count = entry_count(&parts);
    let length = 10 + usize::from(parts.counts.jobs) + 3 * count;
    if buf.len() < length {
        return Err(Refusal::TableRoom);
    }
    lay_table(buf, &parts, count);
    Ok(length)
}
