//! What each step on the table of a lock tells.
ghost use Rattle.bosh_lock.specs.Steps.{Counts, Gives, Looks, Stays, Takes, Weighs};
ghost use Rattle.bosh_lock.specs.Steps.{both_views, given_half, kept_half, spent_view};

use crate::chronicle::Chronicle;
use crate::rule::View;
use atomic_table::{Join, Play, Split};

/// Takes the slot, where it is free.
pub(crate) struct Take;

impl<S: Chronicle> Play<Option<S>, View<S::Item>> for Take {
    ghost then = { λ _. Takes S.items };
}

/// Counts the moves of the value that is held.
pub(crate) struct Count;

impl<S: Chronicle> Play<Option<S>, View<S::Item>> for Count {
    ghost then = { λ _ was _ now. Counts S.items was now };
}

/// Gives the slot back.
pub(crate) struct Give;

impl<S, I> Play<Option<S>, View<I>> for Give {
    ghost then = { λ _ was _ now. Gives was now };
}

/// Looks how long the list is.
pub(crate) struct Look;

impl<S, I> Play<Option<S>, View<I>> for Look {
    ghost then = { λ _. Looks };
}

/// Comes to wait, or goes.
pub(crate) struct Stay;

impl<S, I> Play<Option<S>, View<I>> for Stay {
    ghost then = { λ _ was _ now. Stays was now };
}

/// Finds that a share is no more than all.
pub(crate) struct Weigh;

impl<S, I> Play<Option<S>, View<I>> for Weigh {
    ghost then = { λ _ was _ now. Weighs was now };
}

/// Cuts a view in two.
pub(crate) struct Halves;

impl<I> Split<View<I>> for Halves {
    ghost left = { kept_half };

    ghost right = { given_half };
}

/// Makes two views one.
pub(crate) struct Both;

impl<I> Join<View<I>> for Both {
    ghost both = { both_views };

    ghost spent = { spent_view };
}
