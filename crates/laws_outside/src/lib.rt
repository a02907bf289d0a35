//! What is settled outside of histories, as the program has it, and what its tests decide.
#![tactic(auto)]

mod decides;
mod examples;

pub use decides::{
    it_is_decided_whether_a_package_needs_itself, it_is_decided_whether_a_text_is_a_cloud_config,
    it_is_decided_which_releases_go_with_one_another, what_a_compilation_gives_is_shipped,
};
pub use examples::{
    releases_that_do_not_go_with_others, releases_that_go_with_others,
    texts_that_are_no_cloud_config,
};
