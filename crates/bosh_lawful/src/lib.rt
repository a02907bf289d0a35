//! What each history of a director is like: permitted, safe, recovered, tied, exact where tasks are done, with its links
//! kept and its clean deploys bounded. Beside it, what the workers of one are like: each does one call at a time.
#![tactic(auto)]
