//! What the rows of a goal depend on beside the groups of the manifest.
ghost use Rattle.std.specs.Prelude.{◌≡◌};

use bosh_base::{Name, View};
use bosh_offers::Offered;
use std::marker::Model;

/// A deployment, what its links may be tied to, what is recorded of it, and whether its machines are made anew.
#[derive(Drop)]
pub struct Scene<'a, 'o, 's> {
    pub(crate) dep: &'a Name,
    pub(crate) offered: &'s Offered<'o>,
    pub(crate) view: &'s View,
    pub(crate) fresh_after: u64,
}

impl<'a, 'o, 's> Model for Scene<'a, 'o, 's> {
    ghost use Rattle.std.specs.Coded.{codes};
    ghost use Rattle.bosh_instances.specs.Rows.{Scene};

    ghost Value = { Scene };

    ghost coded = { Prim.hlevel codes };

    ghost view = { λ scene. record {
      dep = scene.dep.now;
      offered = scene.offered.now;
      view = scene.view.now;
      fresh_after = scene.fresh_after;
    } };
}

impl<'a, 'o, 's> Scene<'a, 'o, 's> {
    /// A machine of the deployment that was created by the call `fresh_after`, or an earlier one, is made anew.
    pub fn of(
        dep: &'a Name,
        offered: &'s Offered<'o>,
        view: &'s View,
        fresh_after: u64,
    ) -> Scene<'a, 'o, 's>
        ensures { result ≡ record {
          dep = dep.now;
          offered = offered.now;
          view = view.now;
          fresh_after = fresh_after;
        } }
    {
        Scene {
            dep,
            offered,
            view,
            fresh_after,
        }
    }
}
