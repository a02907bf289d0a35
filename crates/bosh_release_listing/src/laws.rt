ghost use Rattle.bosh_release_listing.specs.Laws.{JobTextTells, PackageTextTells};

/// A listing's text tells what it lists, since no name and no path has a line feed.
#[tactic(auto, using(crate::proofs::ListingLemmas::package_text_tells, crate::proofs::ListingLemmas::job_text_tells))]
pub fn a_text_tells_its_listing()
    ensures package { PackageTextTells }
    ensures job { JobTextTells }
{}
