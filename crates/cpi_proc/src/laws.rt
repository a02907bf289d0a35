//! What holds of requests and replies.
ghost use Rattle.std.specs.Prelude.{◌≡◌, ℕ, List, Some, Ok, Err};
ghost use Rattle.bosh_base.specs.declared.answer.Answer.{Answer};
ghost use Rattle.bosh_base.specs.declared.method.Method.{Method};
ghost use Rattle.cpi_proc.specs.Json.{json_of};
ghost use Rattle.cpi_proc.specs.Reply.{Refuses, Replies, reply_of};
ghost use Rattle.cpi_proc.specs.Request.{IsRequest, request_of, wire};
ghost use Rattle.cpi_proc.specs.declared.fault.PortFault.TheVariants.{Refused};
ghost use Rattle.cpi_proc.specs.declared.request.Request.{Request};

/// What is written is read again: the text of a request is read as that request.
#[tactic(auto, using(crate::proofs::RequestLemmas::written_is_read))]
pub fn what_is_written_is_read()
    ensures { (r : Request) → IsRequest r → request_of (wire r) ≡ Some r }
{}

/// The text determines the request.
#[tactic(auto, using(crate::proofs::RequestLemmas::one_request))]
pub fn one_request_for_a_text()
    ensures { (a b : Request) → IsRequest a → IsRequest b → wire a ≡ wire b → a ≡ b }
{}

/// A text that is read has the JSON value of the text of its request.
pub fn what_is_read_has_its_value()
    ensures { (bytes : List ℕ) (r : Request) → request_of bytes ≡ Some r → IsRequest r × (json_of bytes ≡ json_of (wire r)) }
{}

/// A text that has the JSON value of the text of a request is read as that request.
#[tactic(auto, using(crate::proofs::RequestLemmas::value_is_read))]
pub fn what_has_its_value_is_read()
    ensures { (bytes : List ℕ) (r : Request) → IsRequest r → json_of bytes ≡ json_of (wire r) → request_of bytes ≡ Some r }
{}

/// An answer is read exactly where the bytes say it.
pub fn what_is_said_is_read()
    ensures { (m : Method) (bytes : List ℕ) (answer : Answer) → Replies m bytes answer → reply_of m bytes ≡ Ok answer }
{}

/// And what is read as an answer is what the bytes say.
pub fn what_is_read_is_said()
    ensures { (m : Method) (bytes : List ℕ) (answer : Answer) → reply_of m bytes ≡ Ok answer → Replies m bytes answer }
{}

/// The bytes of a reply to a call say one answer.
pub fn one_answer_for_a_reply()
    ensures { (m : Method) (bytes : List ℕ) (a b : Answer) → Replies m bytes a → Replies m bytes b → a ≡ b }
{}

/// A refusal is read exactly where the bytes say it.
pub fn what_is_refused_is_read()
    ensures { (m : Method) (bytes kind : List ℕ) → Refuses bytes kind → reply_of m bytes ≡ Err (Refused kind) }
{}

/// And what is read as a refusal is what the bytes say.
pub fn what_is_read_is_refused()
    ensures { (m : Method) (bytes kind : List ℕ) → reply_of m bytes ≡ Err (Refused kind) → Refuses bytes kind }
{}
