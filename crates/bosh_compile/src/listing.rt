ghost use Rattle.sha2.specs.Sha256.{sha256};
ghost use Rattle.sha2.specs.Hashers.{Holds256};
ghost use Rattle.std.specs.Prelude.{◌≡◌, ℕ, List, ◌++◌, map};
ghost use Rattle.std.specs.List.{flat_map};
ghost use Rattle.bosh_compile.specs.Listing.{listing, hex_of, line};

use bosh_base::{Digest, KeyWork};
use sha2::{Digest as Hasher, Sha256};

fn add_line(hasher: &mut Sha256, text: &[u8])
    ensures { (fed : List ℕ) → Holds256 hasher.old fed → Holds256 hasher.new (fed ++ line text.now) }
{
    hasher.update(text);
    hasher.update(b"\n");
}

fn add_hex_line(hasher: &mut Sha256, digest: &Digest)
    ensures { (fed : List ℕ) → Holds256 hasher.old fed → Holds256 hasher.new (fed ++ line (hex_of digest.now)) }
{
    let mut digits = [0u8; 64];
    let _ = hex::encode_to_slice(&digest.0, &mut digits);
    add_line(hasher, &digits);
}

fn add_hex_lines(hasher: &mut Sha256, digests: &[Digest])
    ensures { (fed : List ℕ) → Holds256 hasher.old fed → Holds256 hasher.new (fed ++ flat_map line (map hex_of digests.now)) }
{
    for digest in digests {
        add_hex_line(hasher, digest);
    }
}

/// The digest of what compiling a work gives, from the digests of what its dependencies gave.
pub fn built(work: &KeyWork, deps: &[Digest]) -> Digest
    ensures { result.0 ≡ sha256 (listing work.now deps.now) }
{
    let mut hasher = Sha256::new();
    add_line(&mut hasher, b"compiled");
    add_hex_line(&mut hasher, &work.key.fingerprint);
    add_line(&mut hasher, work.key.os.as_slice());
    add_line(&mut hasher, work.key.version.as_slice());
    add_hex_lines(&mut hasher, deps);
    Digest(hasher.finalize())
}
