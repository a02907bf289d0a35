//! Plain types, as cases give them.
mod keys;
mod names;
mod owners;
mod properties;
