ghost use Rattle.std.specs.Prelude.{◌≡◌};

use bosh_base::Answer;
use bosh_book::Permit;

/// A call that was performed and is to be settled.
pub struct HeldCall {
    pub(crate) permit: Permit,
    pub(crate) answer: Answer,
}

impl HeldCall {
    pub fn permit(&self) -> &Permit
        ensures { result.now ≡ self.now.permit }
    {
        &self.permit
    }

    /// What the cloud answered.
    pub fn answer(&self) -> &Answer
        ensures { result.now ≡ self.now.answer }
    {
        &self.answer
    }
}
