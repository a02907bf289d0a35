//! Laws of assigned addresses, on public functions that do nothing.
ghost use Rattle.std.specs.Prelude.{◌≡◌, List, Ok};
ghost use Rattle.std.specs.List.{All, AllZip};
ghost use Rattle.bosh_base.specs.declared.addr.Addr.{Addr};
ghost use Rattle.bosh_base.specs.declared.plan.NetPlan.{NetPlan};
ghost use Rattle.bosh_base.specs.declared.view.Held.{Held};
ghost use Rattle.bosh_bands.specs.Apart.{AreApart};
ghost use Rattle.bosh_pool.specs.Assigned.{IsAssigned};
ghost use Rattle.bosh_pool.specs.Assignment.{assignment};
ghost use Rattle.bosh_pool.specs.Safe.{AreDifferent, AreHeldOnce, AreWantedOnce, IsLent, IsUnreserved, IsUnshared, IsUntaken};
ghost use Rattle.bosh_pool.specs.declared.want.Want.{Want};

/// What `assign` answers is an assignment: each want has the address that the manifest gives, or the one that its
/// instance keeps, or the least that is dynamic for it and that nobody had before.
pub fn what_is_given_is_assigned()
    ensures { (wants : List Want) (plan : NetPlan) (taken kept : List Held) (addrs : List Addr)
        → assignment wants plan taken kept ≡ Ok addrs → IsAssigned wants plan taken kept addrs }
{}

/// Each address that `assign` gives is one of the want's network and zone: a static one where the manifest names it, and
/// else a dynamic one. Where the ranges of the subnets have no address in common, as in a checked config, it is not
/// reserved, is at no end of a range and is no gateway.
pub fn each_address_is_one_of_its_network()
    ensures lent { (wants : List Want) (plan : NetPlan) (taken kept : List Held) (addrs : List Addr)
        → assignment wants plan taken kept ≡ Ok addrs → AllZip (IsLent plan) wants addrs }
    ensures unreserved { (wants : List Want) (plan : NetPlan) (taken kept : List Held) (addrs : List Addr)
        → AreApart plan.subnets
        → assignment wants plan taken kept ≡ Ok addrs → All (IsUnreserved plan) addrs }
{}

/// Nobody else holds an address that `assign` gives; of the deployment's own instances this is so where no address is
/// kept twice.
pub fn nobody_else_holds_an_assigned_address()
    ensures untaken { (wants : List Want) (plan : NetPlan) (taken kept : List Held) (addrs : List Addr)
        → assignment wants plan taken kept ≡ Ok addrs → All (IsUntaken taken) addrs }
    ensures unshared { (wants : List Want) (plan : NetPlan) (taken kept : List Held) (addrs : List Addr)
        → AreHeldOnce kept
        → assignment wants plan taken kept ≡ Ok addrs → AllZip (IsUnshared kept) wants addrs }
{}

/// No two wants have one address, where no instance wants two addresses on one network, the ranges of the subnets have
/// no address in common, and no address is kept twice.
pub fn assigned_addresses_are_different()
    ensures { (wants : List Want) (plan : NetPlan) (taken kept : List Held) (addrs : List Addr)
        → AreWantedOnce wants → AreApart plan.subnets → AreHeldOnce kept
        → assignment wants plan taken kept ≡ Ok addrs → AreDifferent addrs }
{}
