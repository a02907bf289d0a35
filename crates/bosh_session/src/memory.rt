ghost use Rattle.std.specs.Prelude.{◌≡◌, IfErr, IfOk, Ok};
ghost use Rattle.bosh_transcript.specs.declared.status.Status.TheVariants.{Memory};

use bosh_answers::AnswerFault;
use bosh_transcript::Status;

/// An answer, or the end of the session: only want of memory leaves a command without one.
pub(crate) fn answered<T>(answer: Result<T, AnswerFault>) -> Result<T, Status>
    ensures answer { IfOk result (λ value. answer ≡ Ok value) }
    ensures memory { IfErr result (λ status. status ≡ Memory) }
{
    match answer {
        Ok(value) => Ok(value),
        Err(AnswerFault::Memory) => Err(Status::Memory),
    }
}
