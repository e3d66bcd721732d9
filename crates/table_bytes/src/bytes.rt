// Where the parts of table bytes stand.
ghost use Rattle.std.specs.Prelude.{◌≡◌, true, ◌+◌, ◌*◌, ◌≤◌, ◌<◌, length};
ghost use Rattle.state.specs.State.{is_version};
ghost use Rattle.table_bytes.specs.Bytes.{word, version_in, counts_in, entry_count, entries_start, table_length};
ghost use Rattle.table_bytes.specs.Bytes.{entry_start, entry_rank, entry_object, entry_mode, order};

use state::Counts;

// An entry of a table: the job of the rank may lock the object in mode 1 read, 2 write, 3 both.
#[derive(Clone, Copy)]
pub struct Entry {
    pub rank: u8,
    pub object: u8,
    pub mode: u8,
}

impl Entry {
    // The number by which entries ascend: by rank, then object.
    pub(crate) fn order(self) -> u16
        ensures { result ≡ order self.rank self.object }
    {
        u16::from_be_bytes([self.rank, self.object])
    }
}

// The number of 16 bits at the index, high byte first.
fn word_at(bytes: &[u8], at: usize) -> u16
    requires { at + 1 < length bytes.now }
    ensures { result ≡ word bytes.now at }
{
    u16::from_be_bytes([bytes[at], bytes[at + 1]])
}

// The version and the numbers of processors, jobs and objects in the header. A version's high byte is 0.
pub fn counts_in(bytes: &[u8]) -> Counts
    requires { (8 ≤ length bytes.now) × (is_version (version_in bytes.now) ≡ true) }
    ensures { result ≡ counts_in bytes.now }
{
    Counts {
        version: bytes[4],
        processors: bytes[5],
        jobs: bytes[6],
        objects: bytes[7],
    }
}

// Where the entries start: behind the header, the processor bytes and the entry count.
pub fn entries_start(bytes: &[u8]) -> usize
    requires { 8 ≤ length bytes.now }
    ensures { (result ≡ entries_start bytes.now) × (result < 266) }
{
    10 + usize::from(bytes[6])
}

// How many entries the table has.
pub fn entry_count(bytes: &[u8]) -> usize
    requires { entries_start bytes.now ≤ length bytes.now }
    ensures { (result ≡ entry_count bytes.now) × (result < 65536) }
{
    usize::from(word_at(bytes, 8 + usize::from(bytes[6])))
}

// How many bytes the table has.
pub fn table_length(bytes: &[u8]) -> usize
    requires { entries_start bytes.now ≤ length bytes.now }
    ensures { result ≡ table_length bytes.now }
{
    entries_start(bytes) + 3 * entry_count(bytes)
}

// Where the entry starts, counted from 0.
pub fn entry_start(bytes: &[u8], entry: usize) -> usize
    requires { (8 ≤ length bytes.now) × (entry < 65536) }
    ensures { (result ≡ entry_start bytes.now entry) × (result < 196874) }
{
    entries_start(bytes) + 3 * entry
}

// The entry, counted from 0.
pub fn entry_at(bytes: &[u8], entry: usize) -> Entry
    requires { (entry < 65536) × (entry_start bytes.now entry + 3 ≤ length bytes.now) }
    ensures { (result.rank ≡ entry_rank bytes.now entry) × (result.object ≡ entry_object bytes.now entry)
        × (result.mode ≡ entry_mode bytes.now entry) }
{
    let start = entry_start(bytes, entry);
    Entry {
        rank: bytes[start],
        object: bytes[start + 1],
        mode: bytes[start + 2],
    }
}
