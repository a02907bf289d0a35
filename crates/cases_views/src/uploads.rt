//! Releases that are uploaded.
ghost use Rattle.std.specs.Prelude.{All};
ghost use Rattle.bosh_alike.specs.Alike.{AreAlike};
ghost use Rattle.bosh_release.specs.Sound.{IsSound};

use bosh_alike::stay_alike;
use bosh_base::{Key, PackageSpec, Release, Text};
use bosh_yaml::Node;
use cases_files::release;
use cases_given::{CaseFault, both, word_of};
use std::alloc::Global;
use std::marker::Model;

/// Releases that go with one another.
#[derive(Drop)]
pub(crate) struct Uploads {
    releases: Vec<Release>,
}

impl Model for Uploads {
    ghost use Rattle.std.specs.Prelude.{List};
    ghost use Rattle.bosh_base.specs.declared.release.Release.{Release};
    ghost use Rattle.cases_views.specs.Fit.{AreFit};

    ghost Value = { List Release };

    ghost view = { λ uploads. uploads.releases.items };

    ghost invariant = { λ uploads. AreFit uploads.releases.items };
}

impl Uploads {
    fn new(alloc: Global) -> Uploads {
        Uploads {
            releases: Vec::new(alloc),
        }
    }

    pub(crate) fn as_slice(&self) -> &[Release]
        ensures sound { All IsSound result.now }
        ensures alike { AreAlike result.now }
    {
        self.releases.as_slice()
    }

    // Adds a release, where it goes with the others.
    fn add(&mut self, release: Release) -> Result<(), CaseFault>
        requires { IsSound release }
    {
        if !stay_alike(self.releases.as_slice(), &release) {
            return Err(CaseFault::Form);
        }
        self.releases.push(release)?;
        Ok(())
    }

    // The first package of a name.
    fn package(&self, name: &str) -> Option<&PackageSpec> {
        for release in &self.releases {
            if let Some(package) = package_of(release, name) {
                return Some(package);
            }
        }
        None
    }
}

fn package_of<'a>(release: &'a Release, name: &str) -> Option<&'a PackageSpec> {
    release
        .packages
        .iter()
        .find(|pack| pack.name.as_bytes() == name.as_bytes())
}

fn added(alloc: Global, nodes: &[Node]) -> Result<Uploads, CaseFault> {
    let mut uploads = Uploads::new(alloc);
    for node in nodes {
        uploads.add(release(alloc, node)?)?;
    }
    Ok(uploads)
}

/// The releases of a list, or none where it is absent.
pub(crate) fn uploaded(alloc: Global, list: Option<&Node>) -> Result<Uploads, CaseFault> {
    match list {
        None => Ok(Uploads::new(alloc)),
        Some(Node::List(nodes)) => added(alloc, nodes.as_slice()),
        Some(_) => Err(CaseFault::Form),
    }
}

fn text_of(alloc: Global, word: &str) -> Result<Text, CaseFault> {
    Ok(Text::from(Vec::from_slice(alloc, word.as_bytes())?))
}

// The name of a package, and the operating system and version of a stemcell.
fn key_words(text: &str) -> Option<(&str, &str, &str)> {
    let (name, stemcell) = text.split_once(' ')?;
    let (os, version) = stemcell.split_once('/')?;
    Some((name, os, version))
}

// A package by its name, and the stemcell that it is compiled for.
fn key_of(alloc: Global, uploads: &Uploads, text: &str) -> Result<Key, CaseFault> {
    let (name, os, version) = key_words(text).ok_or(CaseFault::Form)?;
    let package = uploads.package(name).ok_or(CaseFault::Form)?;
    let (os, version) = both(text_of(alloc, os), text_of(alloc, version))?;
    Ok(Key {
        fingerprint: package.fingerprint,
        os,
        version,
    })
}

/// As `app jammy/1`: the key of a package of the releases.
pub(crate) fn key(alloc: Global, uploads: &Uploads, node: &Node) -> Result<Key, CaseFault> {
    key_of(alloc, uploads, word_of(node)?)
}
