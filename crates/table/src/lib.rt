// Table bytes read: the fresh state that they declare, and one job's entries.
#![tactic(auto, using(table_bytes::specs::AcceptedTable::accepted_table))]

ghost use Rattle.std.specs.Prelude.{◌≡◌};
ghost use Rattle.table.specs.Reading.{read_table, read_of};

mod accepted;
mod job;

use accepted::Accepted;
pub use job::job_entries;
use state::{Refusal, State, zero_state};
use table_bytes::{table_length, table_refusal};

// What the table reader answers: how it ended, how many bytes the table has, its fresh state.
#[derive(Clone, Copy)]
pub struct TableRead {
    pub ended: Result<(), Refusal>,
    pub used: usize,
    pub state: State,
}

// How many bytes the table has and the fresh state that they declare. Bytes behind the table are not looked at.
// On a refusal 0 bytes and a state whose numbers are all 0.
pub fn read_table(bytes: &[u8]) -> TableRead
    ensures { read_of result ≡ read_table bytes.now }
{
    if let Err(refusal) = table_refusal(bytes) {
        return TableRead {
            ended: Err(refusal),
            used: 0,
            state: zero_state(),
        };
    }
    let table = Accepted { bytes };
    TableRead {
        ended: Ok(()),
        used: table_length(bytes),
        state: table.state(),
    }
}
