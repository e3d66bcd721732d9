// One job's entries, as a start and a length within lent table bytes.
ghost use Rattle.std.specs.Prelude.{◌≡◌};
ghost use Rattle.table_bytes.specs.Refusals.{table_refusal};
ghost use Rattle.table.specs.JobEntries.{job_entries_refusal};
ghost use Rattle.vongselik.specs.Entries.{part_start, start_cell, length_cell};

use table_bytes::{entry_at, entry_count, entry_start};

// Where the rank's entries start in accepted table bytes: behind those of smaller ranks.
#[tactic(auto, using(table_bytes::specs::AcceptedTable::accepted_table, crate::specs::Entries::smaller_more, crate::specs::Entries::smaller_le))]
fn part_start(bytes: &[u8], rank: u8) -> usize
    requires { table_refusal bytes.now ≡ 0 }
    ensures { result ≡ part_start bytes.now rank }
{
    let mut smaller: usize = 0;
    for k in 0..entry_count(bytes) {
        smaller += usize::from(entry_at(bytes, k).rank < rank);
    }
    entry_start(bytes, smaller)
}

// Where one job's entries start within the table bytes and how many bytes they have, in the lent cells. Answers 0, or the refusal's number, 1 to 7 or 10,
// and leaves the cells as they were.
#[tactic(auto, using(table::specs::JobPart::job_accepted))]
#[unsafe(no_mangle)]
pub extern "C" fn vongselik_parts_job_entries(
    bytes: &[u8],
    rank: u8,
    start: &mut usize,
    length: &mut usize,
) -> u8
    ensures number { result ≡ job_entries_refusal bytes.now rank }
    ensures start { start.new ≡ start_cell bytes.now rank start.old }
    ensures length { length.new ≡ length_cell bytes.now rank length.old }
{
    let mut number = 0;
    let entries = table::job_entries(bytes, rank, &mut number);
    if number != 0 {
        return number;
    }
    *start = part_start(bytes, rank);
    *length = entries.len();
    0
}
