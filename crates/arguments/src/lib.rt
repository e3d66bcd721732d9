// A program's arguments: the texts, and the numbers that they say in decimal.
#![tactic(auto)]

ghost use Rattle.std.specs.Prelude.{◌≡◌, ◌≤◌, length, IfSome};
ghost use Rattle.arguments.specs.Numbers as N;
ghost use Rattle.arguments.specs.Texts as T;

use std::env::{Env, FillError};
use std::str;

// How many bytes an argument has in its buffer, by what was answered of it: none where it is longer than the buffer.
fn length_of(got: Result<usize, FillError>) -> Option<usize>
    ensures { result ≡ T.length_of got }
{
    match got {
        Ok(length) => Some(length),
        Err(FillError::TooLong) => Some(0),
        Err(FillError::NotPresent) => None,
    }
}

// The program's argument with this number, at the front of the buffer, and of one that is longer than the buffer no byte; nothing where there is no
// such argument.
pub fn argument<'a>(rt: &impl Env, i: usize, buffer: &'a mut [u8]) -> Option<&'a [u8]>
    ensures { IfSome result (λ text. length text.now ≤ length buffer.old) }
{
    let length = length_of(rt.arg(i, buffer))?;
    Some(&buffer[..length])
}

// Whether the text is decimal digits alone, one or more.
fn is_decimal(text: &[u8]) -> bool
    ensures { result ≡ N.is_decimal text.now }
{
    !text.is_empty() && text.iter().all(|byte| byte.is_ascii_digit())
}

// The number that the text says in decimal digits alone, if it says one and that is at most `most`.
pub fn number_in(text: &[u8], most: u64) -> Option<u64>
    ensures { result ≡ N.number_in most text.now }
{
    if !is_decimal(text) {
        return None;
    }
    let number = str::from_utf8(text).ok()?.parse::<u64>().ok()?;
    if number <= most { Some(number) } else { None }
}
