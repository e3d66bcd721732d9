// One job's entries, as a part of the table bytes.
ghost use Rattle.std.specs.Prelude.{◌≡◌};
ghost use Rattle.state.specs.RefusalNumbers.{refusal_number};
ghost use Rattle.table.specs.JobEntries.{job_entries_refusal, job_entries, part_of};

use crate::accepted::Accepted;
use state::{Refusal, within};
use table_bytes::{entry_start, table_refusal};

// The refusal of the table bytes, then 10 if they have no such rank.
fn job_entries_refusal(bytes: &[u8], rank: u8) -> Result<(), Refusal>
    ensures { refusal_number result ≡ job_entries_refusal bytes.now rank }
{
    table_refusal(bytes)?;
    if !within(1, bytes[6], rank) {
        return Err(Refusal::NoSuchRank);
    }
    Ok(())
}

// The part of the table bytes that holds the entries of the job of the rank, empty if it has none.
#[tactic(auto, using(table_bytes::specs::AcceptedTable::accepted_table, crate::specs::JobPart::job_accepted))]
fn job_part<'a>(bytes: &'a [u8], rank: u8) -> Result<&'a [u8], Refusal>
    ensures { (part_of result ≡ job_entries bytes.now rank) × (refusal_number result ≡ job_entries_refusal bytes.now rank) }
{
    job_entries_refusal(bytes, rank)?;
    let table = Accepted { bytes };
    let first = table.first_entry_from(rank, 0);
    let next = table.first_entry_from(rank + 1, first);
    let from = entry_start(bytes, first);
    let to = entry_start(bytes, next);
    Ok(&bytes[from..to])
}

// The part of the table bytes that holds the entries of the job of the rank, and 0 in `number`.
// On a refusal the part is empty and `number` says which.
pub fn job_entries<'a>(bytes: &'a [u8], rank: u8, number: &mut u8) -> &'a [u8]
    ensures { (result.now ≡ job_entries bytes.now rank) × (number.new ≡ job_entries_refusal bytes.now rank) }
{
    match job_part(bytes, rank) {
        Ok(part) => {
            *number = 0;
            part
        }
        Err(refusal) => {
            *number = refusal.number();
            &bytes[..0]
        }
    }
}
