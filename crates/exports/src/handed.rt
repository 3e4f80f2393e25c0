// What a call of the library answers, as a C host gets it: the number, returned, and the value, at an address of the host's.
ghost use Rattle.std.specs.Prelude.{◌≡◌};
ghost use Rattle.std.specs.Result.{result_unwrap_or};
ghost use Rattle.geometry.specs.Refusal.{answer_number};

use geometry::refusal::{Refusal, number};

// Sets the value, to `otherwise` at a refusal, and gives the number.
pub fn hand_over<T: Copy>(answer: Result<T, Refusal>, otherwise: T, value: &mut T) -> u8
    ensures numbered { result ≡ answer_number answer }
    ensures set { value.new ≡ result_unwrap_or answer otherwise }
{
    let answered = number(&answer);
    *value = answer.unwrap_or(otherwise);
    answered
}
