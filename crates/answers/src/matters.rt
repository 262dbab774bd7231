// What each call is given, which decides the numbers that it checks.
ghost use Rattle.std.specs.Prelude.{◌≡◌};
ghost use Rattle.refusals.specs.Matters.{matter};
ghost use Rattle.answers.specs.Matters.{matter_of};

use super::Call;
use refusals::Given;

// What a call is given.
#[tactic(auto, unfolding(crate::specs::Matters::matter_of))]
pub fn given(call: Call) -> Given
    ensures { matter result ≡ matter_of call }
{
    match call {
        Call::TakeException(vector) | Call::TakeGroup2Exception(vector) => Given::Vector(vector),
        Call::TakeFpUnimp060(_) | Call::TakeFpDisabled060 => Given::FloatingPoint,
        Call::CheckTrace | Call::SetIrq(_) | Call::CheckInterrupts => Given::Record,
        Call::CheckAndServiceInterrupts => Given::Interrupt,
        _ => Given::StoreAndLog,
    }
}
