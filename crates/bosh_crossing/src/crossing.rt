use bosh_book::Book;
use bosh_ports::Keeper;
use bosh_records::Records;
use bosh_work::Work;
use bosh_world::Site;

// (the bound is all that is asked of a type)
const fn is_sent<T: Send>() {}

/// What is left to do of a task may be sent to another thread.
pub const fn what_works_cross() {
    is_sent::<Work>();
}

/// The records may be sent to another thread.
pub const fn what_records_cross() {
    is_sent::<Records>();
}

/// A book may be sent to another thread, where its store may.
pub const fn what_books_cross<K: Keeper + Send>() {
    is_sent::<Book<K>>();
}

/// A site may be sent to another thread, where its stores may.
pub const fn what_sites_cross<K: Keeper + Send, L: Keeper + Send>() {
    is_sent::<Site<K, L>>();
}
