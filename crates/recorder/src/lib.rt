// Writes the bench record of what comes from a reader to a file descriptor, part by part, as it comes.
#![tactic(auto)]

ghost use Rattle.std.specs.Prelude.{◌≡◌, ◌+◌, ◌*◌, ◌-◌, ◌^◌, ◌≤◌, ◌<◌, length, take, drop, IsOkUnless};
ghost use Rattle.table_bytes.specs.Decided.{longest_table};
ghost use Rattle.decimals.specs.Laid.{Laid};
ghost use Rattle.stream.specs.Parts.{unread, feed, Advances};
ghost use Rattle.recorder.specs.declared.RecordError.{RecordError};
ghost use Rattle.recorder.specs.Recording.{Feeds, AfterSomeParts, failure_of, failure_line, MayEndWithoutPart, Records};

use descriptors::{STANDARD_ERROR, STANDARD_OUTPUT, read_part};
use std::io::{Error, Input, Read};
use stream::{Advanced, Bench};

// Room for the bytes that are held and a part: more than the longest table has.
pub type InputBuffer = [u8; 32768];

// Room for all lines that the input buffer decides: 15 bytes for each of its bytes, and two lines.
pub type RecordBuffer = [u8; 491610];

// So many bytes are read, and no part behind them: a proved loop has to end, and 64 bits count the events of these.
const MOST_BYTES: u64 = u64::MAX - u16::MAX as u64;

// Why a record is not whole: a read failed, a write failed, or more events came than 64 bits count.
#[derive(Clone, Copy)]
pub enum RecordError {
    NotRead,
    NotWritten,
    TooLong,
}

impl From<Error> for RecordError {
    ghost from_gives = { λ _ e. e ≡ RecordError.NotRead };

    fn from(_error: Error) -> Self {
        Self::NotRead
    }
}

impl RecordError {
    // The line that says it.
    fn line(self) -> &'static [u8]
        ensures { result.now ≡ failure_line (failure_of (Err self)) }
    {
        match self {
            RecordError::NotRead | RecordError::TooLong => b"bench: the input cannot be read\n",
            RecordError::NotWritten => b"bench: the record cannot be written\n",
        }
    }
}

// How it ended, how many bytes came, the bench behind them, and how many of them are held at the front of the input buffer.
#[derive(Clone, Copy)]
pub struct Recorded {
    pub ended: Result<(), RecordError>,
    pub received: u64,
    pub bench: Bench,
    pub held: usize,
}

// All that the bytes decide, laid in two steps: one for the table, one for the events behind it.
fn take_steps(bench: Bench, bytes: &[u8], lines: &mut [u8]) -> Advanced
    requires { (90 + 15 * length bytes.now ≤ length lines.old) × (bench.events + length bytes.now + 1 < 2 ^ 64) }
    ensures { Advances result (feed bench bytes.now) 90 lines.old lines.new }
{
    let first = stream::advance(bench, bytes, lines);
    let second = stream::advance(first.bench, &bytes[first.used..], &mut lines[first.laid..]);
    Advanced {
        bench: second.bench,
        used: first.used + second.used,
        laid: first.laid + second.laid,
    }
}

// Moves the bytes from one index up to another to the front; answers how many they are.
fn move_to_front(buf: &mut [u8], from: usize, to: usize) -> usize
    requires { (from ≤ to) × (to ≤ length buf.old) }
    ensures { Laid buf.old buf.new 0 result (to - from) (drop from (take to buf.old)) }
{
    if from != 0 {
        buf.copy_within(from..to, 0);
    }
    to - from
}

// So many bytes have come, and stand in the input buffer behind those that are held. Lays all lines that they decide, and holds the bytes that were not
// used at the front of the input buffer. Answers the length of the lines.
fn feed(recorded: &mut Recorded, input: &mut [u8], count: usize, lines: &mut [u8]) -> usize
    requires { (recorded.old.held + count ≤ length input.old) × (90 + 15 * (recorded.old.held + count) ≤ length lines.old)
        × (recorded.old.bench.events + (recorded.old.held + count) + 1 < 2 ^ 64) × (recorded.old.received + count < 2 ^ 64) }
    ensures fed { Feeds (record { bench = recorded.new.bench; held = recorded.new.held; laid = result })
        (take (recorded.old.held + count) input.old) (feed recorded.old.bench (take (recorded.old.held + count) input.old))
        input.old input.new lines.old lines.new }
    ensures received { recorded.new.received ≡ recorded.old.received + count }
{
    let filled = recorded.held + count;
    let advanced = take_steps(recorded.bench, &input[..filled], lines);
    recorded.bench = advanced.bench;
    recorded.held = move_to_front(input, advanced.used, filled);
    recorded.received += count as u64;
    advanced.laid
}

// Writes the lines.
fn write_lines(to: i32, lines: &[u8]) -> Result<(), RecordError>
    ensures { IsOkUnless result RecordError.NotWritten }
{
    if io::write_all(to, lines) {
        Ok(())
    } else {
        Err(RecordError::NotWritten)
    }
}

// Writes the last line, where the bytes held at the front of the input buffer were not used: those that some parts leave to this bench.
fn write_last(to: i32, recorded: &Recorded, input: &[u8]) -> Result<(), RecordError>
    requires { AfterSomeParts recorded.now.bench (take recorded.now.held input.now) × (recorded.now.held ≤ length input.now) }
    ensures { MayEndWithoutPart result recorded.now.bench }
{
    let mut line = [0; 64];
    let n = stream::last_line(&mut line, recorded.bench, recorded.held);
    write_lines(to, &line[..n])
}

// Reads part after part and writes the lines of each as it comes.
fn run<R: Read>(
    from: &mut R,
    to: i32,
    most: usize,
    input: &mut [u8],
    lines: &mut [u8],
    recorded: &mut Recorded,
) -> Result<(), RecordError>
    requires room { (longest_table ≤ length input.old) × (length input.old < 2 ^ 16) × (90 + 15 * length input.old ≤ length lines.old) }
    requires begun { (recorded.old.received ≡ 0) × (recorded.old.bench ≡ unread) × (recorded.old.held ≡ 0) }
    ensures { Records (record recorded.new { ended = result }) input.new lines.old lines.new }
{
    while recorded.received < MOST_BYTES {
        let Some(count) = read_part(from, most, input, recorded.held)? else {
            return write_last(to, recorded, input);
        };
        let laid = feed(recorded, input, count, lines);
        write_lines(to, &lines[..laid])?;
        if recorded.bench.refusal > 1 {
            return Ok(());
        }
    }
    Err(RecordError::TooLong)
}

// Writes the record of what comes on `from`, at most so many bytes at a time (and at least one), to `to`: after each read the lines that
// it decides, behind the last the last line. Where a read or a write fails it stops at once and says so on `errors`. Hands back the bench and
// the bytes held, at the front of the input buffer, behind the parts that came; the record buffer has the lines of each part over the last.
pub fn write_record<R: Read>(
    from: &mut R,
    to: i32,
    errors: i32,
    most: usize,
    input: &mut InputBuffer,
    lines: &mut RecordBuffer,
) -> Recorded
    ensures { Records result input.new lines.old lines.new }
{
    let mut recorded = Recorded {
        ended: Ok(()),
        received: 0,
        bench: stream::unread(),
        held: 0,
    };
    recorded.ended = run(from, to, most, input, lines, &mut recorded);
    if let Err(error) = recorded.ended {
        io::write_all(errors, error.line());
    }
    recorded
}

// The record of what comes on `from`, written to standard output; where a read or a write fails it says so on standard error.
pub fn write_standard<R: Read>(
    from: &mut R,
    input: &mut InputBuffer,
    lines: &mut RecordBuffer,
) -> Recorded
    ensures { Records result input.new lines.old lines.new }
{
    write_record(from, STANDARD_OUTPUT, STANDARD_ERROR, 32768, input, lines)
}

// The record of standard input, written as `write_standard` writes it.
pub fn write_standard_record(
    rt: &impl Input,
    input: &mut InputBuffer,
    lines: &mut RecordBuffer,
) -> Recorded
    ensures { Records result input.new lines.old lines.new }
{
    let mut from = rt.reader();
    write_standard(&mut from, input, lines)
}
