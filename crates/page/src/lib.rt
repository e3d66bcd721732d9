// The state page for the service screen, written into a lent buffer: a line for each active job.
#![tactic(auto)]

ghost use Rattle.std.specs.Prelude.{◌≡◌, ◌≤◌, length};
ghost use Rattle.state.specs.Clauses.{Within};
ghost use Rattle.state.specs.Holders.{HolderFacts};
ghost use Rattle.state.specs.Facts.{Sized};
ghost use Rattle.state.specs.Lent.{state_in};
ghost use Rattle.state.specs.RefusalNumbers.{length_reply};
ghost use Rattle.decimals.specs.Laid.{at_front};
ghost use Rattle.page.specs.Page as P;
ghost use Rattle.page.specs.Parts.{ProcessorsFit};

mod lines;

use inheritance::named_locks;
use lines::{lay_lines, running_ranks};
use state::{Parts, Refusal, State};
use well_formed::fits_sized;

// Lays the state's page into the front of the buffer and leaves the rest; answers the page's length.
// Refused by 8 if the state is not well formed, then by 22 if the buffer is shorter than the page: the buffer is then untouched.
pub fn page(state: State, buf: &mut [u8]) -> Result<usize, Refusal>
    ensures { (length_reply result ≡ P.write_page state buf.old) × (buf.new ≡ P.page_written state buf.old) × Sized state }
{
    write_page(&state.parts(), buf)
}

// The same on the parts of a state.
#[tactic(auto, using(crate::specs::PageLaws::page_long), unfolding(crate::specs::Page::page_refusal, crate::specs::Page::write_page, crate::specs::Page::page_written))]
pub fn write_page(parts: &Parts, buf: &mut [u8]) -> Result<usize, Refusal>
    ensures { (length_reply result ≡ P.write_page (state_in parts.now) buf.old) × (buf.new ≡ P.page_written (state_in parts.now) buf.old) }
{
    if !fits_sized(parts) {
        return Err(Refusal::NotWellFormed);
    }
    let length = 21 * ranks::size(parts.active);
    if buf.len() < length {
        return Err(Refusal::PageRoom);
    }
    lay_page(buf, parts);
    Ok(length)
}

// The page laid into the front of the buffer, where it has room; the bytes behind it stay.
fn lay_page(buf: &mut [u8], parts: &Parts)
    requires { Within parts.now.counts × ProcessorsFit parts.now.counts parts.now.processor_of.now × HolderFacts (state_in parts.now)
        × (length (P.page (state_in parts.now)) ≤ length buf.old) }
    ensures { buf.new ≡ at_front (P.page (state_in parts.now)) buf.old }
{
    let named = named_locks(parts);
    let awake = ranks::minus(parts.active, parts.sleeping);
    let running = running_ranks(parts, &named, awake);
    lay_lines(buf, parts, &named, &running);
}
