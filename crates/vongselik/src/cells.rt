// An answer put into a lent cell.
ghost use Rattle.std.specs.Prelude.{◌≡◌};
ghost use Rattle.std.specs.Result.{result_unwrap_or};
ghost use Rattle.state.specs.RefusalNumbers.{refusal_number};

use state::Refusal;

// Puts the value into the cell and answers 0. Answers the refusal's number where there is no value, and leaves the cell as it was.
pub(crate) fn put<T: Copy>(answer: Result<T, Refusal>, cell: &mut T) -> u8
    ensures number { result ≡ refusal_number answer }
    ensures cell { cell.new ≡ result_unwrap_or answer cell.old }
{
    match answer {
        Ok(value) => {
            *cell = value;
            0
        }
        Err(refusal) => refusal.number(),
    }
}
