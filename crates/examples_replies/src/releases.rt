ghost use Rattle.std.specs.Prelude.{codes};
ghost use Rattle.examples_replies.specs.Releases.{ComesTo, NeverComesTo, is_new, of_version, there};

/// A release that is there is not added again, also where its version is spelled otherwise.
pub fn releases_are_told()
    ensures same { ComesTo (of_version (codes "1")) (there (of_version (codes "1"))) }
    ensures spelled_otherwise { ComesTo (of_version (codes "1.0")) (there (of_version (codes "1.0"))) }
    ensures not_added { NeverComesTo (of_version (codes "1.0")) (is_new (of_version (codes "1.0"))) }
    ensures not_there { NeverComesTo (of_version (codes "2")) (there (of_version (codes "2"))) }
{}
