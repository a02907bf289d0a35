ghost use Rattle.std.specs.Prelude.{◌≡◌};
ghost use Rattle.bosh_manifest.specs.Sound.{IsSound};

use crate::Contents;
use std::marker::Model;

/// A checked manifest. It has a name; no name stands twice in one list; there are at most 64 groups, of at most 256
/// instances each and 512 in all; a group has a zone, at most 64 jobs and at most 16 networks, of which exactly one has
/// the gateway; shares, numbers of instances and sizes of disks are within their bounds.
#[derive(Drop)]
pub struct Manifest {
    contents: Contents,
}

impl Model for Manifest {
    ghost use Rattle.std.specs.Coded.{codes};
    ghost use Rattle.bosh_yaml.specs.Code.{tree_code};
    ghost use Rattle.bosh_manifest.specs.declared.manifest.Contents.{Contents};
    ghost use Rattle.bosh_manifest.specs.Sound.{IsSound};

    ghost Value = { Contents };

    ghost coded = { Prim.hlevel (codes, tree_code) };

    ghost view = { λ manifest. manifest.contents };

    ghost invariant = { λ manifest. IsSound manifest.contents };
}

impl Manifest {
    pub(crate) fn of(contents: Contents) -> Self
        requires { IsSound contents }
        ensures { result ≡ contents }
    {
        Manifest { contents }
    }

    pub fn contents(&self) -> &Contents
        ensures contents { result.now ≡ self.now }
        ensures sound { IsSound result.now }
    {
        &self.contents
    }
}
