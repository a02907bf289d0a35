ghost use Rattle.std.specs.Prelude.{◌≡◌, ◌≤◌, ◌^◌};

use crate::chronicle::Chronicle;
use crate::rule::View;
use atomic_table::Seat;
use std::marker::Model;

/// The leave to enter one lock. It carries the length that it has seen of the list, and a share of 2^32.
#[derive(Drop)]
pub struct Pass<S: Chronicle> {
    pub(crate) seat: Seat<Option<S>, View<S::Item>>,
    pub(crate) share: u64,
    pub(crate) reached: u64,
}

impl<S: Chronicle> Model for Pass<S> {
    ghost use Rattle.std.specs.Prelude.{◌≡◌, ◌^◌, ◌≤◌, false, [], length};
    ghost use Rattle.bosh_lock.specs.Views.{PassView, pass_code};

    ghost Value = { PassView S.Item };

    ghost coded = { pass_code S.Item.code };

    ghost view = { λ p. record { lock = p.seat.table_id; share = p.share; seen = p.seat.me.0.seen } };

    ghost invariant = { λ p. (p.share ≡ p.seat.me.0.share) × (1 ≤ p.share) × (p.share ≤ 2 ^ 32)
        × (p.reached ≡ length p.seat.me.0.seen) × (p.seat.me.0.holds ≡ false) × (p.seat.me.1 ≡ []) };
}

impl<S: Chronicle> Pass<S> {
    /// How much it has of 2^32.
    pub fn share(&self) -> u64
        ensures share { result ≡ self.now.share }
        ensures least { 1 ≤ result }
        ensures most { result ≤ 2 ^ 32 }
    {
        self.share
    }
}
