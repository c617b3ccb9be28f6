ghost use Rattle.std.specs.Prelude.{◌≡◌};
ghost use Rattle.command_core.specs.Changes.{asm_answer};

use report_text::{Answer, Code};
use rv_asm::AsmError;

/// What a text that isn't assembled answers.
pub(crate) fn not_assembled(error: AsmError) -> Answer
    ensures { result ≡ asm_answer error }
{
    match error {
        AsmError::BadLine(k) => Answer::Refused(Code::AsmLine(k)),
        AsmError::Twice(k) => Answer::Refused(Code::AsmTwice(k)),
        AsmError::NoLabel(k) => Answer::Refused(Code::AsmNoLabel(k)),
        AsmError::OutOfReach(k) => Answer::Refused(Code::AsmOutOfReach(k)),
        AsmError::Empty => Answer::Refused(Code::AsmEmpty),
        AsmError::TooMany => Answer::Refused(Code::AsmTooMany),
        AsmError::Memory => Answer::Memory,
    }
}
