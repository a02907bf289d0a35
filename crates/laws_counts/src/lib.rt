//! What is kept of each task since it opened, and the facts by which the calls of clean tasks are counted.
#![tactic(auto)]
