// The bench over an input that comes in parts: the lines that the bytes at hand decide, and the last line.
#![tactic(auto)]

ghost use Rattle.std.specs.Prelude.{◌≡◌, ◌+◌, ◌*◌, ◌/◌, ◌-◌, ◌^◌, ◌≤◌, ◌<◌, min, length};
ghost use Rattle.decimals.specs.Laid.{Laid};
ghost use Rattle.lines.specs.Lines.{LineLaid};
ghost use Rattle.state.specs.RefusalNumbers.{number};
ghost use Rattle.state.specs.State.{zero_state};
ghost use Rattle.table.specs.Reading.{read_table};
ghost use Rattle.stream.specs.Parts.{unread, opening_line, opening, answering, advance, most_lines, last_line_of, Advances};

use lines::{LineBuffer, lay_end, lay_header, lay_refused, lay_short};
use record::lay_events;
use state::{PartsMut, Refusal, State, zero_state};

// How far the input is read. The refusal is 1 as long as the table may still be incomplete, 0 behind a table that was accepted, its
// number behind one that was refused. Then how many events were answered, and the state behind them.
#[derive(Clone, Copy)]
pub struct Bench {
    pub refusal: u8,
    pub events: u64,
    pub state: State,
}

// What a step did: the bench behind it, how many of the bytes it used, and the length of the lines that it laid.
#[derive(Clone, Copy)]
pub struct Advanced {
    pub bench: Bench,
    pub used: usize,
    pub laid: usize,
}

// How many lines there is room for, behind so many events: the longest has 45 bytes, and an event's number has 64 bits.
fn most_lines(room: usize, events: u64) -> usize
    ensures { result ≡ min (room / 45) (2 ^ 64 - 1 - events) }
{
    (room / 45).min((u64::MAX - events) as usize)
}

// Lays the line of a refused table, none as long as it may be incomplete. Answers its length.
fn lay_refusal(lines: &mut [u8], refusal: Refusal) -> usize
    requires { 45 ≤ length lines.old }
    ensures { Laid lines.old lines.new 0 result 45 (opening_line (number refusal) zero_state.counts) }
{
    match refusal {
        Refusal::TableCut => 0,
        other => lay_refused(lines, other.number()),
    }
}

// A step before the table is decided.
fn open_table(bytes: &[u8], lines: &mut [u8]) -> Advanced
    requires { 45 ≤ length lines.old }
    ensures { Advances result (opening (read_table bytes.now)) 45 lines.old lines.new }
{
    let read = table::read_table(bytes);
    let (refusal, laid) = match read.ended {
        Ok(()) => (0, lay_header(lines, read.state.counts)),
        Err(refusal) => (refusal.number(), lay_refusal(lines, refusal)),
    };
    Advanced {
        bench: Bench {
            refusal,
            events: 0,
            state: read.state,
        },
        used: read.used,
        laid,
    }
}

// A step behind an accepted table: the first `count` events.
fn answer(bench: Bench, count: usize, bytes: &[u8], lines: &mut [u8]) -> Advanced
    requires { (3 * count ≤ length bytes.now) × (45 * count ≤ length lines.old) × (bench.events + count < 2 ^ 64) }
    ensures { Advances result (answering count bench bytes.now) 45 lines.old lines.new }
{
    let mut next = bench.state;
    let mut parts = PartsMut {
        counts: next.counts,
        processor_of: &next.processor_of,
        may_read: &next.may_read,
        may_write: &next.may_write,
        active: &mut next.active,
        unlocked: &mut next.unlocked,
        sleeping: &mut next.sleeping,
        holder: &mut next.holder,
        readers: &mut next.readers,
        writers: &mut next.writers,
        certified: &mut next.certified,
        request: &mut next.request,
    };
    let used = 3 * count;
    let laid = lay_events(&mut parts, lines, bench.events, &bytes[..used]);
    let after = Bench {
        refusal: 0,
        events: bench.events + count as u64,
        state: next,
    };
    Advanced {
        bench: after,
        used,
        laid,
    }
}

// The bench before the first byte.
pub fn unread() -> Bench
    ensures { result ≡ unread }
{
    let state = zero_state();
    Bench {
        refusal: 1,
        events: 0,
        state,
    }
}

// A step over the bytes that have come and were not used yet: it lays the lines that they decide, as many as there is room for, at the
// front of the lent buffer. A step that had room for a line and used no byte is the last until more bytes come: the table or an event is
// cut, or the table is refused.
pub fn advance(bench: Bench, bytes: &[u8], lines: &mut [u8]) -> Advanced
    ensures { Advances result (advance (most_lines (length lines.old) bench) bench bytes.now) 45 lines.old lines.new }
{
    let most = most_lines(lines.len(), bench.events);
    if most != 0 {
        if bench.refusal == 1 {
            return open_table(bytes, lines);
        }
        if bench.refusal == 0 {
            let count = most.min(bytes.len() / 3);
            return answer(bench, count, bytes, lines);
        }
    }
    Advanced {
        bench,
        used: 0,
        laid: 0,
    }
}

// Lays the last line at the front. Answers its length.
fn lay_last(lines: &mut [u8], bench: Bench, left: usize) -> usize
    requires { 45 ≤ length lines.old }
    ensures { Laid lines.old lines.new 0 result 45 (last_line_of bench left) }
{
    if bench.refusal == 1 {
        return lay_refused(lines, 1);
    }
    if bench.refusal != 0 {
        return 0;
    }
    if left == 0 {
        return lay_end(lines, bench.events);
    }
    lay_short(lines)
}

// The last line, where the input has ended and so many bytes were not used, at the front of the lent buffer; none behind a table that was
// refused, whose line is laid. Answers its length.
pub fn last_line(buf: &mut LineBuffer, bench: Bench, left: usize) -> usize
    ensures { LineLaid (last_line_of bench left) buf.old buf.new result }
{
    lay_last(buf, bench, left)
}
