// The lines of the page, each laid into its own part of a lent buffer.
ghost use Rattle.std.specs.Prelude.{◌≡◌, not, [], ◌∷◌, ◌+◌, ◌≤◌, ◌<◌, eqb, length};
ghost use Rattle.basics.specs.Arrays.{at};
ghost use Rattle.state.specs.State.{most_jobs, most_processors};
ghost use Rattle.state.specs.Clauses.{Within};
ghost use Rattle.decimals.specs.Laid.{Laid, at_front};
ghost use Rattle.decimals.specs.Decimal.{decimal};
ghost use Rattle.decimals.specs.Fields.{space, right_aligned};
ghost use Rattle.page.specs.Page.{letter_of, named_field, line_of};
ghost use Rattle.page.specs.Parts.{RunsBy, ProcessorsFit, line_by, lines_by};

use decimals::{lay_aligned, lay_byte, lay_letter, lay_three};
use inheritance::{JobLocks, inherited_by, lock_holder, lock_object, running_by};
use ranks::{RankSet, contains};
use state::{JobProcessors, JobRequests, Parts};

// A rank for each processor.
pub type ProcessorRanks = [u8; 8];

// What a line shows; holder and object 0 where the job names nobody.
#[derive(Clone, Copy)]
struct Fields {
    rank: u8,
    processor: u8,
    letter: u8,
    inherited: u8,
    holder: u8,
    object: u8,
}

// For each processor the rank that it runs, by the ranks that are awake and the lock that each rank names; 0 where it is idle.
pub fn running_ranks(parts: &Parts, named: &JobLocks, awake: RankSet) -> ProcessorRanks
    requires { (parts.now.counts.jobs ≤ most_jobs) × (parts.now.counts.processors ≤ most_processors) }
    ensures { RunsBy result parts.now.counts named.now parts.now.processor_of.now awake parts.now.request.now }
{
    let mut running: ProcessorRanks = [0; 8];
    for processor in 0..parts.counts.processors {
        running[processor as usize] = running_by(
            parts.counts.jobs,
            named,
            parts.processor_of,
            awake,
            parts.request,
            processor,
        );
    }
    running
}

// The letter of a rank with this request, whose processor runs the rank `runs`: R runs, W waits, Z sleeps, I is ready.
fn state_letter(runs: u8, request: u16, sleeps: bool, rank: u8) -> u8
    ensures { result ≡ letter_of runs (not (eqb request 0)) sleeps rank }
{
    if runs == rank {
        b'R'
    } else if request != 0 {
        b'W'
    } else if sleeps {
        b'Z'
    } else {
        b'I'
    }
}

// A space and a number in three bytes.
fn lay_field(buf: &mut [u8], at: usize, number: u8) -> usize
    requires { at + 4 ≤ length buf.old }
    ensures { Laid buf.old buf.new at result 4 (space ∷ right_aligned 3 (decimal number)) }
{
    let end = lay_byte(buf, at, b' ');
    lay_aligned(buf, end, number)
}

// The same of the holder or the object of a named lock; blank where the holder is 0, nobody.
#[tactic(auto, unfolding(decimals::specs::Fields::right_aligned))]
fn lay_named(buf: &mut [u8], at: usize, holder: u8, number: u8) -> usize
    requires { at + 4 ≤ length buf.old }
    ensures { Laid buf.old buf.new at result 4 (space ∷ right_aligned 3 (named_field holder number)) }
{
    if holder == 0 {
        let end = lay_byte(buf, at, b' ');
        return lay_three(buf, end, b' ', b' ', b' ');
    }
    lay_field(buf, at, number)
}

// A line of these fields, which fills the lent part. The processor in three bytes is a space and the processor in two.
fn lay_line(line: &mut [u8], fields: Fields)
    requires { (length line.old ≡ 21) × (fields.processor < 100) }
    ensures { line.new ≡ line_of fields.rank fields.processor fields.letter fields.inherited fields.holder fields.object }
{
    let by = lay_aligned(line, 0, fields.rank);
    let on = lay_aligned(line, by, fields.processor);
    let then = lay_letter(line, on, fields.letter);
    let own = lay_field(line, then, fields.inherited);
    let named = lay_named(line, own, fields.holder, fields.holder);
    let last = lay_named(line, named, fields.holder, fields.object);
    lay_byte(line, last, b'\n');
}

// The rank's line, which fills the lent part.
#[tactic(auto, using(basics::specs::Arrays::at_index), unfolding(crate::specs::Parts::line_by))]
fn lay_rank(
    line: &mut [u8],
    jobs: u8,
    named: &JobLocks,
    running: &ProcessorRanks,
    processor_of: &JobProcessors,
    sleeping: RankSet,
    request: &JobRequests,
    rank: u8,
)
    requires { (length line.old ≡ 21) × (1 ≤ rank) × (rank ≤ most_jobs) × (jobs ≤ most_jobs) × (at processor_of.now rank < most_processors) }
    ensures { line.new ≡ line_by jobs named.now running.now processor_of.now sleeping request.now rank }
{
    let i = (rank - 1) as usize;
    let processor = processor_of[i];
    let sleeps = contains(sleeping, rank);
    let lock = named[i];
    lay_line(
        line,
        Fields {
            rank,
            processor,
            letter: state_letter(running[processor as usize], request[i], sleeps, rank),
            inherited: inherited_by(jobs, named, rank),
            holder: lock_holder(lock),
            object: lock_object(lock),
        },
    );
}

// The lines of the active ranks, one behind the other from the buffer's front on; the bytes behind them stay.
#[tactic(auto, unfolding(crate::specs::Parts::lines_by, basics::specs::Loops::joined))]
pub fn lay_lines(buf: &mut [u8], parts: &Parts, named: &JobLocks, running: &ProcessorRanks)
    requires { Within parts.now.counts × ProcessorsFit parts.now.counts parts.now.processor_of.now
        × (length (lines_by parts.now.counts.jobs parts.now.counts.jobs named.now running.now parts.now.processor_of.now parts.now.active
        parts.now.sleeping parts.now.request.now) ≤ length buf.old) }
    ensures { buf.new ≡ at_front (lines_by parts.now.counts.jobs parts.now.counts.jobs named.now running.now parts.now.processor_of.now
        parts.now.active parts.now.sleeping parts.now.request.now) buf.old }
{
    let mut end = 0;
    for i in 0..usize::from(parts.counts.jobs) {
        let rank = (i + 1) as u8;
        if contains(parts.active, rank) {
            let start = end;
            end += 21;
            lay_rank(
                &mut buf[start..end],
                parts.counts.jobs,
                named,
                running,
                parts.processor_of,
                parts.sleeping,
                parts.request,
                rank,
            );
        }
    }
}
