//! What is recorded goes on to stand for what the entries tell, once one more entry is taken in.
#![tactic(auto)]

mod alike;
mod calls;
mod updates;
mod uploads;
mod works;

pub use alike::what_is_recorded_stands_with_room_for_more;
pub use calls::{
    what_is_recorded_stands_after_a_call_begins, what_is_recorded_stands_after_a_call_ends,
};
pub use updates::what_is_recorded_stands_after_an_update_begins;
pub use uploads::what_is_recorded_stands_after_uploads;
pub use works::{work_stands_after_a_call_begins, work_stands_after_a_call_ends};
