// States in which every job is idle and every object unlocked.
ghost use Rattle.std.specs.Prelude.{◌≡◌};
ghost use Rattle.state.specs.State.{fresh_state, zero_state};

use crate::{Counts, JobProcessors, ObjectSets, State};
use ranks::EMPTY;

// The state of the table in which every job is idle and every object unlocked.
pub fn fresh_state(
    counts: Counts,
    processor_of: JobProcessors,
    may_read: ObjectSets,
    may_write: ObjectSets,
) -> State
    ensures { result ≡ fresh_state counts processor_of may_read may_write }
{
    State {
        counts,
        processor_of,
        may_read,
        may_write,
        active: EMPTY,
        unlocked: EMPTY,
        sleeping: EMPTY,
        holder: 0,
        readers: [0; 128],
        writers: [0; 128],
        certified: [0; 2],
        request: [0; 64],
    }
}

// The state whose numbers are all 0.
pub fn zero_state() -> State
    ensures { result ≡ zero_state }
{
    let counts = Counts {
        version: 0,
        processors: 0,
        jobs: 0,
        objects: 0,
    };
    fresh_state(counts, [0; 64], [0; 128], [0; 128])
}
