//! What a site did is permitted, step by step: its history goes on to be one that is permitted, and its book, its cloud and
//! its open calls go on to be as that history tells.
#![tactic(auto)]

mod calls;
mod choices;
mod found;
mod jobs;
mod kept;
mod loaded;
mod openings;
mod performed;
mod refused;
mod settled;
mod steps;
mod unmoved;
mod uploads;

pub use calls::open_calls_are_those_of_the_moment;
pub use choices::{a_task_may_end_as_it_comes_to_its_end, what_a_good_site_chooses_is_lawful};
pub use found::what_is_outside_is_as_it_is_found_out;
pub use jobs::{a_good_site_loses_what_may_be_lost, a_good_site_writes_what_a_job_may};
pub use kept::{a_good_site_is_armed, a_good_site_replies};
pub use loaded::a_site_that_was_loaded_is_good;
pub use openings::{a_good_site_opens_a_task, a_good_site_that_opens_no_task_stays_good};
pub use performed::a_good_site_performs_what_it_may;
pub use refused::{
    a_good_site_gives_up_a_call, a_good_site_stops_in_a_call,
    a_good_site_that_refuses_a_call_stays_good,
};
pub use settled::a_call_that_is_held_may_end;
pub use steps::{
    a_good_site_ends_a_task, a_good_site_gives_work, a_good_site_is_good_after_a_drive,
    a_good_site_is_good_after_each_step, a_good_site_settles_a_call,
};
pub use unmoved::{
    a_good_site_that_ends_no_task_stays_good, a_good_site_that_notes_nothing_stays_good,
    a_good_site_that_refuses_an_answer_stays_good, a_good_site_that_settles_no_call_stays_good,
};
pub use uploads::{
    a_good_site_takes_a_config, a_good_site_takes_a_release, a_good_site_takes_a_stemcell,
};
