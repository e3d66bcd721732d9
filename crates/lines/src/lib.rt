// The lines of the bench record, laid one at a time at the front of a lent buffer. Each function answers its line's length.
#![tactic(auto, using(crate::specs::LineLaws::line_laid))]

ghost use Rattle.lines.specs.Lines.{header_line, event_line, end_line, short_line, refused_line, LineLaid};

mod lay;

use events::Answer;
pub use lay::{lay_end, lay_event, lay_header, lay_refused, lay_short};
use state::Counts;

// Room for any line: the longest has 45 bytes.
pub type LineBuffer = [u8; 64];

// Line 1 of a record: mark, version, jobs, processors, objects.
pub fn header_line(buf: &mut LineBuffer, counts: Counts) -> usize
    ensures { LineLaid (header_line counts) buf.old buf.new result }
{
    lay_header(buf, counts)
}

// The line of the event with this number, which got this answer on a table of this version.
pub fn event_line(
    buf: &mut LineBuffer,
    version: u8,
    number: u64,
    kind: u8,
    rank: u8,
    object: u8,
    answer: Answer,
) -> usize
    ensures { LineLaid (event_line version number kind rank object answer) buf.old buf.new result }
{
    lay_event(buf, 0, version, number, kind, rank, object, answer)
}

// The last line: the event count.
pub fn end_line(buf: &mut LineBuffer, events: u64) -> usize
    ensures { LineLaid (end_line events) buf.old buf.new result }
{
    lay_end(buf, events)
}

// The last line where one or two bytes are left over.
pub fn short_line(buf: &mut LineBuffer) -> usize
    ensures { LineLaid short_line buf.old buf.new result }
{
    lay_short(buf)
}

// The only line where the table is refused.
pub fn refused_line(buf: &mut LineBuffer, number: u8) -> usize
    ensures { LineLaid (refused_line number) buf.old buf.new result }
{
    lay_refused(buf, number)
}
