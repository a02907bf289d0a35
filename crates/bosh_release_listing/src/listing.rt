ghost use Rattle.sha2.specs.Hashers.{Holds256};
ghost use Rattle.sha2.specs.Sha256.{sha256};
ghost use Rattle.std.specs.Prelude.{◌≡◌, ◌∷◌, ◌++◌, ℕ, List, codes, map};
ghost use Rattle.std.specs.List.{flat_map};
ghost use Rattle.bosh_release_listing.specs.Lines.{hex_of, line, text_of};
ghost use Rattle.bosh_release_listing.specs.Listing.{dep_line, digest_line, digest_of, file_line, job_text, name_line, package_text};
ghost use Rattle.bosh_release_listing.specs.Parts.{job_of, package_of, stamp_view};

use bosh_base::{Digest, Name};
use sha2::{Digest as Hasher, Sha256};

/// What is listed: a file of a package by its path below `src/`, or a template of a job by its path below the job's
/// `templates/`, with the digest of its bytes; or a package that another one needs, with its fingerprint.
#[derive(Clone, Copy)]
pub struct Stamp<'a> {
    pub name: &'a [u8],
    pub digest: Digest,
}

fn add_line(hasher: &mut Sha256, text: &[u8])
    ensures { (fed : List ℕ) → Holds256 hasher.old fed → Holds256 hasher.new (fed ++ line text.now) }
{
    hasher.update(text);
    hasher.update(b"\n");
}

fn add_hex(hasher: &mut Sha256, digest: &Digest)
    ensures { (fed : List ℕ) → Holds256 hasher.old fed → Holds256 hasher.new (fed ++ hex_of digest.now) }
{
    let mut digits = [0u8; 64];
    let _ = hex::encode_to_slice(&digest.0, &mut digits);
    hasher.update(digits.as_slice());
}

/// The SHA-256 of a listing, or of any bytes.
pub fn fingerprint(bytes: &[u8]) -> Digest
    ensures { result ≡ digest_of bytes.now }
{
    let mut hasher = Sha256::new();
    hasher.update(bytes);
    Digest(hasher.finalize())
}

fn add_name(hasher: &mut Sha256, name: &Name)
    ensures { (fed : List ℕ) → Holds256 hasher.old fed → Holds256 hasher.new (fed ++ line (name_line name.now)) }
{
    hasher.update(b"name ");
    add_line(hasher, name.as_bytes());
}

fn add_digest(hasher: &mut Sha256, word: &[u8], digest: &Digest)
    ensures { (fed : List ℕ) → Holds256 hasher.old fed
        → Holds256 hasher.new (fed ++ line (digest_line word.now digest.now)) }
{
    hasher.update(word);
    add_hex(hasher, digest);
    hasher.update(b"\n");
}

fn add_file(hasher: &mut Sha256, word: &[u8], file: &Stamp<'_>)
    ensures { (fed : List ℕ) → Holds256 hasher.old fed
        → Holds256 hasher.new (fed ++ line (file_line word.now (stamp_view file.now))) }
{
    hasher.update(word);
    add_hex(hasher, &file.digest);
    hasher.update(b" ");
    add_line(hasher, file.name);
}

#[tactic(auto, using(crate::proofs::ListLemmas::lines_more))]
fn add_files(hasher: &mut Sha256, word: &[u8], files: &[Stamp<'_>])
    ensures { (fed : List ℕ) → Holds256 hasher.old fed
        → Holds256 hasher.new (fed ++ text_of (map (file_line word.now) (map stamp_view files.now))) }
{
    for file in files {
        add_file(hasher, word, file);
    }
}

fn add_dep(hasher: &mut Sha256, dep: &Stamp<'_>)
    ensures { (fed : List ℕ) → Holds256 hasher.old fed
        → Holds256 hasher.new (fed ++ line (dep_line (stamp_view dep.now))) }
{
    hasher.update(b"dep ");
    hasher.update(dep.name);
    hasher.update(b" ");
    add_hex(hasher, &dep.digest);
    hasher.update(b"\n");
}

#[tactic(auto, using(crate::proofs::ListLemmas::lines_more))]
fn add_deps(hasher: &mut Sha256, deps: &[Stamp<'_>])
    ensures { (fed : List ℕ) → Holds256 hasher.old fed
        → Holds256 hasher.new (fed ++ text_of (map dep_line (map stamp_view deps.now))) }
{
    for dep in deps {
        add_dep(hasher, dep);
    }
}

#[tactic(auto, using(crate::proofs::ListLemmas::text_append))]
fn add_files_and_deps(hasher: &mut Sha256, files: &[Stamp<'_>], deps: &[Stamp<'_>])
    ensures { (fed : List ℕ) → Holds256 hasher.old fed
        → Holds256 hasher.new (fed ++ text_of (map (file_line (codes "file ")) (map stamp_view files.now)
        ++ map dep_line (map stamp_view deps.now))) }
{
    add_files(hasher, b"file ", files);
    add_deps(hasher, deps);
}

/// The fingerprint of a package: of its name, the digest of its script `packaging`, its files by path, and the packages
/// that it needs by name.
pub fn package_fingerprint(
    name: &Name,
    script: &Digest,
    files: &[Stamp<'_>],
    deps: &[Stamp<'_>],
) -> Digest
    ensures { result ≡ digest_of (package_text (package_of name.now script.now files.now deps.now)) }
{
    let mut hasher = Sha256::new();
    add_line(&mut hasher, b"bosh-package 1");
    add_name(&mut hasher, name);
    add_digest(&mut hasher, b"script ", script);
    add_files_and_deps(&mut hasher, files, deps);
    Digest(hasher.finalize())
}

/// The fingerprint of a job: of its name, the digests of its files `spec` and `monit`, and its templates by source.
pub fn job_fingerprint(
    name: &Name,
    spec: &Digest,
    monit: &Digest,
    templates: &[Stamp<'_>],
) -> Digest
    ensures { result ≡ digest_of (job_text (job_of name.now spec.now monit.now templates.now)) }
{
    let mut hasher = Sha256::new();
    add_line(&mut hasher, b"bosh-job 1");
    add_name(&mut hasher, name);
    add_digest(&mut hasher, b"spec ", spec);
    add_digest(&mut hasher, b"monit ", monit);
    add_files(&mut hasher, b"template ", templates);
    Digest(hasher.finalize())
}
