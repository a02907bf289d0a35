//! Lists of what is recorded, and of what is there.
ghost use Rattle.std.specs.Prelude.{false, ◌≡◌};
ghost use Rattle.bosh_answers.specs.Listings.{IsListed};
ghost use Rattle.bosh_answers.specs.declared.kind.Listing.{Listing};
ghost use Rattle.bosh_base.specs.declared.reply.Reply.{Reply};
ghost use Rattle.bosh_history.specs.Fit.{IsFit};
ghost use Rattle.bosh_history.specs.Moments.{Opening};
ghost use Rattle.bosh_history.specs.Notes.{Outside};
ghost use Rattle.bosh_records.specs.Recorded.{recorded};
ghost use Rattle.laws_due.specs.Replies.{listed_reply};
ghost use Rattle.laws_sites.specs.Good.{IsGood, moment_of};
ghost use Rattle.laws_stands_snapshots.specs.Built.{BuiltStand};

use bosh_ports::Keeper;
use bosh_world::Site;

/// What is listed of what a good site that runs has recorded is the list of what is known. Where compiled packages are
/// recorded as they are known, so is theirs, by name and key.
pub fn what_is_listed_is_due<K: Keeper, L: Keeper>(site: &Site<K, L>)
    ensures { (outside : Outside) (o : Opening) (listing : Listing) (reply : Reply) → IsFit outside o
        → IsGood outside K.bodies L.bodies o site.now → site.now.history.is_halted ≡ false
        → BuiltStand (moment_of o site.now).known.built (recorded site.now.book.records)
        → IsListed listing site.now.book.records reply → reply ≡ listed_reply (moment_of o site.now).known listing }
{}
