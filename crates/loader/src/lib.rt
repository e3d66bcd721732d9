// Writes a test load: a seed and a count from two texts, the table from a reader, the events to a file descriptor, part by part.
#![tactic(auto)]

ghost use Rattle.std.specs.Prelude.{◌≡◌, true, ◌*◌, ◌≤◌, length};
ghost use Rattle.state.specs.WellFormed.{well_formed};
ghost use Rattle.table_bytes.specs.Decided.{longest_table};
ghost use Rattle.arguments.specs.Numbers.{number_in};
ghost use Rattle.loader.specs.declared.LoadError.{LoadError};
ghost use Rattle.loader.specs.Loading.{part_events, most_seed, most_count, ReadBytes, Parts, LoadsTexts, LoadsArguments};

use arguments::{argument, number_in};
use descriptors::{STANDARD_ERROR, STANDARD_OUTPUT, read_part};
use state::{Refusal, State};
use std::env::Env;
use std::io::{Error, Input, Read};
use table_bytes::table_refusal;

// Room for the table: more than the longest has.
pub type TableBuffer = [u8; 32768];

// How many events a part of the load has at most.
const PART_EVENTS: usize = 21845;

// Room for a part of the load.
pub type EventBuffer = [u8; 65535];

// Why a load is not whole: there are not two arguments; the seed or the count is no number that is wanted; a read failed; the table was refused;
// a write failed.
#[derive(Clone, Copy)]
pub enum LoadError {
    NotTwo,
    BadSeed,
    BadCount,
    NotRead,
    Refused(Refusal),
    NotWritten,
}

impl From<Error> for LoadError {
    ghost from_gives = { λ _ e. e ≡ LoadError.NotRead };

    fn from(_error: Error) -> Self {
        Self::NotRead
    }
}

impl From<Refusal> for LoadError {
    ghost from_gives = { λ refusal e. e ≡ LoadError.Refused refusal };

    fn from(refusal: Refusal) -> Self {
        Self::Refused(refusal)
    }
}

// How it ended, how many bytes of the table buffer were read, how many events were made, and the seed behind them.
#[derive(Clone, Copy)]
pub struct Loaded {
    pub ended: Result<(), LoadError>,
    pub held: usize,
    pub made: usize,
    pub seed: u32,
}

// A load that ended before it read or made anything.
fn unstarted(ended: Result<(), LoadError>) -> Loaded
    ensures { result ≡ record { ended = ended; held = 0; made = 0; seed = 0 } }
{
    Loaded {
        ended,
        held: 0,
        made: 0,
        seed: 0,
    }
}

// Reads, at most so many bytes at a time, until the bytes decide whether there is a table at their front, or the input ends. Counts the bytes.
fn read_bytes<R: Read>(
    from: &mut R,
    most: usize,
    bytes: &mut [u8],
    held: &mut usize,
) -> std::io::Result<()>
    requires { (longest_table ≤ length bytes.old) × (held.old ≡ 0) }
    ensures { ReadBytes result held.new bytes.old bytes.new }
{
    while let Err(Refusal::TableCut) = table_refusal(&bytes[..*held]) {
        let Some(count) = read_part(from, most, bytes, *held)? else {
            break;
        };
        *held += count;
    }
    Ok(())
}

// Makes the events and writes them, as many at a time as the buffer holds. Counts the events, and leaves the seed behind them.
fn write_parts(
    to: i32,
    state: State,
    count: usize,
    events: &mut [u8],
    loaded: &mut Loaded,
) -> Result<(), LoadError>
    requires { (well_formed state ≡ true) × (length events.old ≡ 3 * part_events) × (loaded.old.made ≡ 0) }
    ensures parts { Parts result loaded.new.made loaded.new.seed state.counts loaded.old.seed count events.old events.new }
    ensures held { loaded.new.held ≡ loaded.old.held }
{
    while loaded.made < count {
        let n = PART_EVENTS.min(count - loaded.made);
        let _ = generator::make_events(state, &mut loaded.seed, n, events);
        loaded.made += n;
        if !io::write_all(to, &events[..3 * n]) {
            return Err(LoadError::NotWritten);
        }
    }
    Ok(())
}

// Takes the seed and the count from two texts, reads the table and writes so many events from the seed.
fn load<R: Read>(
    seed_text: &[u8],
    count_text: &[u8],
    from: &mut R,
    to: i32,
    most: usize,
    table: &mut [u8],
    events: &mut [u8],
    loaded: &mut Loaded,
) -> Result<(), LoadError>
    requires room { (longest_table ≤ length table.old) × (length events.old ≡ 3 * part_events) }
    requires unstarted { (loaded.old.held ≡ 0) × (loaded.old.made ≡ 0) × (loaded.old.seed ≡ 0) }
    ensures { LoadsTexts (record loaded.new { ended = result }) (number_in most_seed seed_text.now) (number_in most_count count_text.now)
        table.old table.new events.old events.new }
{
    let seed = number_in(seed_text, u32::MAX as u64).ok_or(LoadError::BadSeed)?;
    let count = number_in(count_text, u64::MAX).ok_or(LoadError::BadCount)?;
    loaded.seed = seed as u32;
    read_bytes(from, most, table, &mut loaded.held)?;
    let read = table::read_table(&table[..loaded.held]);
    read.ended?;
    write_parts(to, read.state, count as usize, events, loaded)
}

// Says in one line why the load is not whole.
fn report(errors: i32, error: LoadError) {
    let line: &[u8] = match error {
        LoadError::NotTwo => b"load: a seed and a count are wanted: load SEED COUNT < table\n",
        LoadError::BadSeed => b"load: the seed is not a decimal number from 0 to 4294967295\n",
        LoadError::BadCount => {
            b"load: the count is not a decimal number from 0 to 18446744073709551615\n"
        }
        LoadError::NotRead => b"load: the table cannot be read\n",
        LoadError::Refused(refusal) => {
            io::write_all(errors, b"load: the table is refused by ");
            io::print_decimal(errors, refusal.number() as u64);
            b"\n"
        }
        LoadError::NotWritten => b"load: the events cannot be written\n",
    };
    io::write_all(errors, line);
}

// Writes the load that two texts ask for, a seed and a count, on the table that comes on `from`, at most so many bytes at a time (and at least
// one), to `to`, part by part. Where the texts, the table, a read or a write stop it, it says so in one line on `errors`; no event is written then,
// but for those before a write that failed. The bytes that came stand at the front of the table buffer, the parts in the event buffer, each over the
// last.
pub fn write_load<R: Read>(
    seed_text: &[u8],
    count_text: &[u8],
    from: &mut R,
    to: i32,
    errors: i32,
    most: usize,
    table: &mut TableBuffer,
    events: &mut EventBuffer,
) -> Loaded
    ensures { LoadsTexts result (number_in most_seed seed_text.now) (number_in most_count count_text.now)
        table.old table.new events.old events.new }
{
    let mut loaded = unstarted(Ok(()));
    loaded.ended = load(
        seed_text,
        count_text,
        from,
        to,
        most,
        table,
        events,
        &mut loaded,
    );
    if let Err(error) = loaded.ended {
        report(errors, error);
    }
    loaded
}

// The load that the program's two arguments ask for, on the table of standard input, written to standard output; what stops it is said on
// standard error.
pub fn write_standard_load(
    rt: &(impl Input + Env),
    table: &mut TableBuffer,
    events: &mut EventBuffer,
) -> Loaded
    ensures { LoadsArguments result table.old table.new events.old events.new }
{
    let mut seed_buffer = io::buffer();
    let mut count_buffer = io::buffer();
    let mut another = [0; 1];
    let (Some(seed_text), Some(count_text), None) = (
        argument(rt, 1, &mut seed_buffer),
        argument(rt, 2, &mut count_buffer),
        argument(rt, 3, &mut another),
    ) else {
        report(STANDARD_ERROR, LoadError::NotTwo);
        return unstarted(Err(LoadError::NotTwo));
    };
    let mut from = rt.reader();
    write_load(
        seed_text,
        count_text,
        &mut from,
        STANDARD_OUTPUT,
        STANDARD_ERROR,
        32768,
        table,
        events,
    )
}
