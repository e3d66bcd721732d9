// The parts of a line, laid into a buffer one behind the other: each answers the index behind its part.
ghost use Rattle.std.specs.Prelude.{◌≡◌, [], ◌∷◌, ◌+◌, ◌≤◌, length};
ghost use Rattle.decimals.specs.Decimal.{decimal};
ghost use Rattle.decimals.specs.Fields.{space, behind};
ghost use Rattle.lines.specs.Lines.{kind_letter, answer_fields, header_line, event_line, end_line, short_line, refused_line};
ghost use Rattle.decimals.specs.Laid.{Laid};
ghost use Rattle.events.specs.Answers.{paper};

use decimals::{lay_byte, lay_byte_number, lay_letter, lay_number, lay_text};
use events::Answer;
use state::Counts;

// A space and a number.
pub fn lay_field(buf: &mut [u8], at: usize, number: u8) -> usize
    requires { at + 4 ≤ length buf.old }
    ensures { Laid buf.old buf.new at result 4 (space ∷ decimal number) }
{
    let end = lay_byte(buf, at, b' ');
    lay_byte_number(buf, end, number)
}

// The letter of an event's kind, on a table of this version.
pub fn kind_letter(version: u8, kind: u8) -> u8
    ensures { result ≡ kind_letter version kind }
{
    if (version == 1) & (kind == 7) {
        return b'?';
    }
    match kind {
        1 => b'S',
        2 => b'R',
        3 => b'W',
        4 => b'U',
        5 => b'F',
        6 => b'A',
        7 => b'C',
        8 => b'Z',
        9 => b'V',
        0 | 10..=255 => b'?',
    }
}

// What stands behind an event's object: the answer's letter and values, and the line feed.
pub fn lay_answer(buf: &mut [u8], at: usize, answer: Answer) -> usize
    requires { at + 15 ≤ length buf.old }
    ensures { Laid buf.old buf.new at result 15 (behind (answer_fields (paper answer))) }
{
    match answer {
        Answer::Granted => lay_text(buf, at, b" G\n"),
        Answer::Waits {
            holder,
            object,
            reason,
        } => {
            let by = lay_letter(buf, at, b'W');
            let on = lay_field(buf, by, holder);
            let why = lay_field(buf, on, object);
            lay_last(buf, why, reason)
        }
        Answer::Done(woken) => {
            let end = lay_letter(buf, at, b'D');
            lay_last(buf, end, woken)
        }
        Answer::Refused(number) => {
            let end = lay_letter(buf, at, b'X');
            lay_last(buf, end, number)
        }
    }
}

// A space and a number, the last of its line, and the line feed.
pub fn lay_last(buf: &mut [u8], at: usize, number: u8) -> usize
    requires { at + 5 ≤ length buf.old }
    ensures { Laid buf.old buf.new at result 5 (behind (decimal number ∷ [])) }
{
    let end = lay_field(buf, at, number);
    lay_byte(buf, end, b'\n')
}

// An event's line.
pub fn lay_event(
    buf: &mut [u8],
    at: usize,
    version: u8,
    number: u64,
    kind: u8,
    rank: u8,
    object: u8,
    answer: Answer,
) -> usize
    requires { at + 45 ≤ length buf.old }
    ensures { Laid buf.old buf.new at result 45 (event_line version number kind rank object answer) }
{
    let of = lay_number(buf, at, number);
    let by = lay_letter(buf, of, kind_letter(version, kind));
    let on = lay_field(buf, by, rank);
    let then = lay_field(buf, on, object);
    lay_answer(buf, then, answer)
}

// The first line.
pub fn lay_header(buf: &mut [u8], counts: Counts) -> usize
    requires { 20 ≤ length buf.old }
    ensures { Laid buf.old buf.new 0 result 20 (header_line counts) }
{
    let mark = lay_text(buf, 0, b"JOB");
    let version = lay_field(buf, mark, counts.version);
    let end = lay_field(buf, version, counts.jobs);
    let next = lay_field(buf, end, counts.processors);
    lay_last(buf, next, counts.objects)
}

// The last line of a whole record.
pub fn lay_end(buf: &mut [u8], events: u64) -> usize
    requires { 25 ≤ length buf.old }
    ensures { Laid buf.old buf.new 0 result 25 (end_line events) }
{
    let word = lay_text(buf, 0, b"end ");
    let end = lay_number(buf, word, events);
    lay_byte(buf, end, b'\n')
}

// The last line of a record with bytes left over.
pub fn lay_short(buf: &mut [u8]) -> usize
    requires { 6 ≤ length buf.old }
    ensures { Laid buf.old buf.new 0 result 6 short_line }
{
    lay_text(buf, 0, b"short\n")
}

// The line of a refused table.
pub fn lay_refused(buf: &mut [u8], number: u8) -> usize
    requires { 6 ≤ length buf.old }
    ensures { Laid buf.old buf.new 0 result 6 (refused_line number) }
{
    let end = lay_byte(buf, 0, b'X');
    lay_last(buf, end, number)
}
