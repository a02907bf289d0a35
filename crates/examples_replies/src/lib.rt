//! Worked replies over worked histories: a right one is due, and wrong ones are not.
#![tactic(auto)]

mod asked;
mod caused;
mod cut_off;
mod deployed;
mod files;
mod generated;
mod in_calls;
mod jobs;
mod laws;
mod listings;
mod one_turn;
mod others;
mod planned;
mod releases;
mod restarts;
mod rooms;
mod served;
mod shelves;
mod tasks;
mod together;
mod two_turns;
mod uploads;
mod whole_turns;

pub use asked::recreations_are_asked;
pub use caused::{
    appends_are_counted, calls_are_counted, failures_are_told_by_counts, halts_have_causes,
    stops_find_what_lines_say, want_of_memory_stops,
};
pub use cut_off::{
    all_are_taken, lines_keep_their_number, openings_are_cut_off, outputs_fail_behind_texts,
    runs_are_cut_off, tasks_end_last, turns_are_cut_in_reading,
};
pub use deployed::manifests_are_deployed;
pub use files::{configs_are_told, files_are_kept, files_are_looked_for_first};
pub use generated::deployments_are_made;
pub use in_calls::{
    failing_lines_are_spent_in_stops, first_lines_stop_in_calls, stores_fail_in_calls,
};
pub use jobs::{disks_are_written_and_read, machines_are_lost_and_shown};
pub use laws::{nothing_is_left, what_is_due_may_be_made};
pub use listings::{instances_are_listed, records_are_listed, the_cloud_is_listed};
pub use one_turn::{
    commands_are_numbered, commands_are_those_of_the_input, shelves_may_tell_later,
};
pub use others::{
    calls_end_before_room_is_out, halts_come_before_ends, lines_and_room_are_told,
    some_commands_have_their_own_rules, stops_find_what_was_asked, tasks_are_told_by_end,
    what_is_under_way_stays,
};
pub use planned::{deployments_are_few, links_are_kept, releases_are_sound};
pub use releases::releases_are_told;
pub use restarts::{restarts_are_told, restarts_find_what_was_asked};
pub use rooms::{
    restarts_find_what_had_room, runs_halt_in_their_work, tasks_end_where_there_is_room,
    work_begins_where_there_is_room,
};
pub use served::{blocks_keep_files, directors_are_loaded, replies_are_noted};
pub use shelves::{failures_are_counted, kept_files_are_read};
pub use tasks::{clean_ups_are_told, deploys_are_told, tasks_are_refused_in_order};
pub use together::tasks_open_in_order;
pub use two_turns::{later_commands_find_what_was_asked, unread_restarts_have_causes};
pub use uploads::{folders_are_uploaded, stemcells_are_told};
pub use whole_turns::turns_are_made;
