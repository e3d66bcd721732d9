// The parts of a table laid into a buffer, and the table made of them.
ghost use Rattle.std.specs.Prelude.{◌≡◌, ◌+◌, ◌*◌, ◌≤◌, ◌<◌, length};
ghost use Rattle.state.specs.Lent.{state_in};
ghost use Rattle.state.specs.State.{most_objects, most_jobs};
ghost use Rattle.table_writer.specs.Writing.{entry_bytes, entries_bytes, table_bytes};
ghost use Rattle.table_writer.specs.Laying.{declared_mode_of, declared_modes, entries_of_rank, laid};

use ranks::{RankSet, contains};
use state::{Parts, Sets};
use table_bytes::Entry;

// The bytes laid at the index; answers the index behind them.
#[tactic(auto, unfolding(crate::specs::Laying::laid))]
fn lay(buf: &mut [u8], at: usize, bytes: &[u8]) -> usize
    requires { at + length bytes.now ≤ length buf.old }
    ensures { (result ≡ at + length bytes.now) × (buf.new ≡ laid buf.old at bytes.now) }
{
    let end = at + bytes.len();
    buf[at..end].copy_from_slice(bytes);
    end
}

// The mode of the rank's entry for an object with these declared ranks: 1 read, 2 write, 3 both, 0 none.
fn declared_mode(reads: RankSet, writes: RankSet, rank: u8) -> u8
    requires { (1 ≤ rank) × (rank ≤ most_jobs) }
    ensures { result ≡ declared_mode_of reads writes rank }
{
    u8::from(contains(reads, rank)) + 2 * u8::from(contains(writes, rank))
}

// An entry laid at the index, where its mode is not 0; answers the index behind it.
fn lay_entry(buf: &mut [u8], at: usize, entry: Entry) -> usize
    requires { at + length (entry_bytes entry.rank entry.object entry.mode) ≤ length buf.old }
    ensures { (result ≡ at + length (entry_bytes entry.rank entry.object entry.mode))
        × (buf.new ≡ laid buf.old at (entry_bytes entry.rank entry.object entry.mode)) }
{
    if entry.mode == 0 {
        return at;
    }
    lay(buf, at, &[entry.rank, entry.object, entry.mode])
}

// The rank's entries laid from the index on, by object; answers the index behind them.
fn lay_rank<'a>(
    buf: &mut [u8],
    at: usize,
    reads: Sets<'a>,
    writes: Sets<'a>,
    rank: u8,
    objects: u8,
) -> usize
    requires { (1 ≤ rank) × (rank ≤ most_jobs) × (objects ≤ most_objects)
        × (at + length (entries_of_rank (declared_modes reads.now writes.now) rank objects) ≤ length buf.old) }
    ensures { (result ≡ at + length (entries_of_rank (declared_modes reads.entry.now writes.entry.now) rank objects))
        × (buf.new ≡ laid buf.old at (entries_of_rank (declared_modes reads.entry.now writes.entry.now) rank objects)) }
{
    let mut end = at;
    for i in 0..objects {
        let place = usize::from(i);
        let mode = declared_mode(reads[place], writes[place], rank);
        let object = i + 1;
        end = lay_entry(buf, end, Entry { rank, object, mode });
    }
    end
}

// The entries of the ranks up to the job count laid from the index on, by rank, then object.
fn lay_entries(buf: &mut [u8], at: usize, parts: &Parts)
    requires { (parts.now.counts.jobs ≤ most_jobs) × (parts.now.counts.objects ≤ most_objects)
        × (at + length (entries_bytes (state_in parts.now)) ≤ length buf.old) }
    ensures { buf.new ≡ laid buf.old at (entries_bytes (state_in parts.now)) }
{
    let mut end = at;
    for k in 0..parts.counts.jobs {
        end = lay_rank(
            buf,
            end,
            parts.may_read,
            parts.may_write,
            k + 1,
            parts.counts.objects,
        );
    }
}

// The table of a state with these parts laid at the front of the buffer, the rest left; the entry count is given.
pub fn lay_table(buf: &mut [u8], parts: &Parts, count: usize)
    requires { (parts.now.counts.jobs ≤ most_jobs) × (parts.now.counts.objects ≤ most_objects) × (length parts.now.processor_of.now ≡ most_jobs)
        × (3 * count ≡ length (entries_bytes (state_in parts.now))) × (count < 65536)
        × (10 + parts.now.counts.jobs + 3 * count ≤ length buf.old) }
    ensures { buf.new ≡ laid buf.old 0 (table_bytes (state_in parts.now)) }
{
    let counts = parts.counts;
    let header = [
        b'J',
        b'O',
        b'B',
        0,
        counts.version,
        counts.processors,
        counts.jobs,
        counts.objects,
    ];
    let mut at = lay(buf, 0, &header);
    at = lay(buf, at, &parts.processor_of[..usize::from(counts.jobs)]);
    at = lay(buf, at, &(count as u16).to_be_bytes());
    lay_entries(buf, at, parts);
}
