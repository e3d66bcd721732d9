// The refusals of table bytes, in document 01's order.
ghost use Rattle.std.specs.Prelude.{◌≡◌, ◌&&◌, ◌+◌, ◌*◌, ◌≤◌, length};
ghost use Rattle.basics.specs.Choice.{between};
ghost use Rattle.state.specs.RefusalNumbers.{refusal_number};
ghost use Rattle.state.specs.State.{is_version};
ghost use Rattle.table_bytes.specs.Bytes.{entries_start, table_length};
ghost use Rattle.table_bytes.specs.Refusals.{has_mark, header_refusal, length_refusal, processor_byte_refusal, entry_refusal, entries_refusal, table_refusal};

use crate::bytes::{Entry, counts_in, entries_start, entry_at, entry_count, table_length};
use state::{Refusal, counts_within, is_version, within};

// Whether the bytes begin with the mark `JOB`.
fn has_mark(bytes: &[u8]) -> bool
    requires { 8 ≤ length bytes.now }
    ensures { result ≡ has_mark bytes.now }
{
    bytes.starts_with(b"JOB")
}

// Whether the two bytes, high byte first, are a version of which there are tables.
fn is_version_word(high: u8, low: u8) -> bool
    ensures { result ≡ is_version (high * 256 + low) }
{
    (high == 0) & is_version(low)
}

// 1 to 4 on the header.
#[tactic(auto, unfolding(crate::specs::Refusals::header_refusal))]
fn header_refusal(bytes: &[u8]) -> Result<(), Refusal>
    ensures { refusal_number result ≡ header_refusal bytes.now }
{
    if bytes.len() < 8 {
        return Err(Refusal::TableCut);
    }
    if !has_mark(bytes) {
        return Err(Refusal::NoTable);
    }
    if !is_version_word(bytes[3], bytes[4]) {
        return Err(Refusal::TableVersion);
    }
    if !counts_within(counts_in(bytes)) {
        return Err(Refusal::TableCounts);
    }
    Ok(())
}

// 1 if the bytes end before the table does, 4 if it has too many entries.
#[tactic(auto, unfolding(crate::specs::Refusals::length_refusal))]
fn length_refusal(bytes: &[u8]) -> Result<(), Refusal>
    requires { 8 ≤ length bytes.now }
    ensures { refusal_number result ≡ length_refusal bytes.now }
{
    if bytes.len() < entries_start(bytes) {
        return Err(Refusal::TableCut);
    }
    if 8192 < entry_count(bytes) {
        return Err(Refusal::TableCounts);
    }
    if bytes.len() < table_length(bytes) {
        return Err(Refusal::TableCut);
    }
    Ok(())
}

// 5 if a processor byte is too large.
fn processor_byte_refusal(bytes: &[u8]) -> Result<(), Refusal>
    requires { entries_start bytes.now ≤ length bytes.now }
    ensures { refusal_number result ≡ processor_byte_refusal bytes.now }
{
    let processors = bytes[5];
    for i in 0..usize::from(bytes[6]) {
        if processors <= bytes[8 + i] {
            return Err(Refusal::ProcessorByte);
        }
    }
    Ok(())
}

// Whether the entry's fields are in range in a table of so many jobs and objects.
fn fields_within(jobs: u8, objects: u8, entry: Entry) -> bool
    ensures { result ≡ (between 1 jobs entry.rank && between 1 objects entry.object && between 1 3 entry.mode) }
{
    within(1, jobs, entry.rank) && within(1, objects, entry.object) && within(1, 3, entry.mode)
}

// 6 if a field of the entry is out of range, 7 if it is not after the one before, whose order is given.
#[tactic(auto, unfolding(crate::specs::Refusals::entry_refusal))]
fn entry_refusal(jobs: u8, objects: u8, before: u16, entry: Entry) -> Result<(), Refusal>
    ensures { refusal_number result ≡ entry_refusal jobs objects before entry.rank entry.object entry.mode }
{
    if !fields_within(jobs, objects, entry) {
        return Err(Refusal::EntryField);
    }
    if entry.order() <= before {
        return Err(Refusal::EntryOrder);
    }
    Ok(())
}

// The refusal of the first faulty entry.
fn entries_refusal(bytes: &[u8]) -> Result<(), Refusal>
    requires { table_length bytes.now ≤ length bytes.now }
    ensures { refusal_number result ≡ entries_refusal bytes.now }
{
    let mut before = 0;
    for k in 0..entry_count(bytes) {
        let entry = entry_at(bytes, k);
        entry_refusal(bytes[6], bytes[7], before, entry)?;
        before = entry.order();
    }
    Ok(())
}

// The refusal of the table bytes.
pub fn table_refusal(bytes: &[u8]) -> Result<(), Refusal>
    ensures { refusal_number result ≡ table_refusal bytes.now }
{
    header_refusal(bytes)?;
    length_refusal(bytes)?;
    processor_byte_refusal(bytes)?;
    entries_refusal(bytes)
}
