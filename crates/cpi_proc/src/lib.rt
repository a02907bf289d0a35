//! The text between the director and the programs of a cloud provider interface: requests, replies, and a port that asks a child
//! program for each call.
#![tactic(auto)]

mod arguments;
mod context;
mod decimal;
mod fault;
mod json_value;
mod laws;
mod method;
mod object;
mod owner;
mod port;
mod reply_reader;
mod reply_writer;
mod request;
mod request_reader;
mod request_writer;

pub use fault::PortFault;
pub use laws::{
    one_answer_for_a_reply, one_request_for_a_text, what_has_its_value_is_read,
    what_is_read_has_its_value, what_is_read_is_refused, what_is_read_is_said,
    what_is_refused_is_read, what_is_said_is_read, what_is_written_is_read,
};
pub use port::ProcPort;
pub use reply_reader::read_reply;
pub use reply_writer::{can_reply, write_reply};
pub use request::Request;
pub use request_reader::read_request;
pub use request_writer::write_request;
