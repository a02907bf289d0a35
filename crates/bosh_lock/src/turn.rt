ghost use Rattle.std.specs.Prelude.{◌≡◌};
ghost use Rattle.std.specs.Borrow.{sem};
ghost use Rattle.bosh_lock.specs.Lends.{LendsValue};

use crate::chronicle::Chronicle;
use crate::rule::View;
use atomic_table::Seat;
use std::marker::Model;

/// The value of one lock, and a pass.
pub struct Turn<S: Chronicle> {
    pub(crate) seat: Seat<Option<S>, View<S::Item>>,
    pub(crate) share: u64,
    pub(crate) value: S,
}

impl<S: Chronicle> Model for Turn<S> {
    ghost use Rattle.std.specs.Prelude.{◌≡◌, ◌^◌, ◌≤◌, true, [], ◌∷◌, None};
    ghost use Rattle.bosh_lock.specs.Views.{TurnView, turn_code};

    ghost Value = { TurnView S S.Item };

    ghost coded = { turn_code S.code S.Item.code };

    ghost view = { λ t. record {
      lock = t.seat.table_id;
      share = t.share;
      entered = t.seat.me.0.seen;
      value = t.value;
    } };

    ghost invariant = { λ t. (t.share ≡ t.seat.me.0.share) × (1 ≤ t.share) × (t.share ≤ 2 ^ 32)
        × (t.seat.me.0.holds ≡ true) × (t.seat.me.1 ≡ (0, None) ∷ []) };
}

impl<S: Chronicle> Turn<S> {
    /// The value, to be read and written.
    pub fn value(&mut self) -> &mut S
        ensures* writes_back { sem 𝓛 (LendsValue S.row S.Item.row S.Chronicle self.entry result) }
        ensures value { result.now ≡ self.old.value }
    {
        &mut self.value
    }
}
