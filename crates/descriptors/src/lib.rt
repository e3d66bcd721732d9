// The standard descriptors, and bytes read from a reader, behind those that are held.
#![tactic(auto)]

ghost use Rattle.std.specs.Prelude.{◌≡◌, ◌+◌, ◌<◌, min, max, length};
ghost use Rattle.descriptors.specs.Reading.{part_of, Came};

use std::io;
use std::io::Read;

// The descriptor of standard output.
pub const STANDARD_OUTPUT: i32 = 1;

// The descriptor of standard error.
pub const STANDARD_ERROR: i32 = 2;

// What a read gave, by its answer: so many bytes, or none at the input's end.
fn part_of(got: io::Result<usize>) -> io::Result<Option<usize>>
    ensures { result ≡ part_of got }
{
    match got {
        Ok(0) => Ok(None),
        Ok(count) => Ok(Some(count)),
        Err(error) => Err(error),
    }
}

// Where the next part ends in a buffer of so many bytes: at most so many behind those that are held, and at least one.
fn part_end(held: usize, most: usize, size: usize) -> usize
    ensures { result ≡ min size (held + max 1 most) }
{
    size.min(held.saturating_add(most.max(1)))
}

// Reads what there is, at most so many bytes (and at least one), behind those that are held: answers how many came, and nothing where the input has
// ended.
pub fn read_part<R: Read>(
    from: &mut R,
    most: usize,
    input: &mut [u8],
    held: usize,
) -> io::Result<Option<usize>>
    requires { held < length input.old }
    ensures { Came result held input.old input.new }
{
    let end = part_end(held, most, input.len());
    let got = from.read(&mut input[held..end]);
    part_of(got)
}
