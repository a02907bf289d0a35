//! Tests that want stand-ins and code: the outside, devices that fail, and whole sessions in memory. All other cases are
//! those of tables.
#![tactic(auto)]

#[cfg(test)]
mod input;
#[cfg(test)]
mod limits;
#[cfg(test)]
mod output;
#[cfg(test)]
mod outside;
#[cfg(test)]
mod ports;
#[cfg(test)]
mod repeated;
#[cfg(test)]
mod session;
