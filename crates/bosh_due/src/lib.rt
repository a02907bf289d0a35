//! What a reply is to say, and what a command may make durable: definitions over a history of moves, which no site and no
//! table of records stands in.
#![tactic(auto)]
