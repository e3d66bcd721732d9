// How many entries a table has.
ghost use Rattle.std.specs.Prelude.{◌≡◌, ◌*◌, ◌≤◌};
ghost use Rattle.ranks.specs.Ranks.{word_bits, union, size};
ghost use Rattle.state.specs.State.{most_objects};
ghost use Rattle.table_writer.specs.Laying.{entry_total};

use ranks::RankSet;
use state::Parts;

// How many entries an object has: one for each rank that may read or write it.
fn object_entries(reads: RankSet, writes: RankSet) -> usize
    ensures { (result ≡ size (union reads writes)) × (result ≤ word_bits) }
{
    ranks::size(ranks::union(reads, writes))
}

// How many entries the table of a state with these parts has.
pub fn entry_count(parts: &Parts) -> usize
    requires { parts.now.counts.objects ≤ most_objects }
    ensures { (result ≡ entry_total parts.now.may_read.now parts.now.may_write.now parts.now.counts.objects)
        × (result ≤ word_bits * parts.now.counts.objects) }
{
    let mut count = 0;
    for i in 0..usize::from(parts.counts.objects) {
        count += object_entries(parts.may_read[i], parts.may_write[i]);
    }
    count
}
