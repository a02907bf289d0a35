//! What a good site leaves: both when it starts anew and when it ends, what is found in its two stores is what a permitted stop
//! leaves, so that it goes on to be good, and a load of them begins on a fit pair.
#![tactic(auto)]

mod left;
mod restarts;

pub use left::{a_load_of_what_a_good_site_left_is_good, what_a_good_site_leaves_is_fit};
pub use restarts::a_good_site_starts_anew;
