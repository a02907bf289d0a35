ghost use Rattle.std.specs.Prelude.{◌≡◌, ◌⊎◌, ℕ, List, None, Some, codes};
ghost use Rattle.bosh_program.specs.Ends.{IsRunByWords, IsTextWritten, IsUnbegun};
ghost use Rattle.bosh_transcript.specs.declared.status.Status.TheVariants.{Usage};

use crate::{Ended, session_plain};
use bosh_base::Text;
use bosh_options::threads;
use bosh_ports::{Gate, Keeper, Shelf, Sink, Source};
use bosh_transcript::{Status, write_all};
use std::alloc::Global;

/// What is written where the words of the command line are none that are known.
const USAGE: &[u8] = b"usage: boshd [--threads=N]\n";

/// The program: a session over two stores. The words are those of the command line after the program's name.
pub fn run<I: Source, O: Sink, F: Shelf, K: Keeper + Drop, L: Keeper + Drop, G: Gate>(
    alloc: Global,
    words: &[Text],
    input: &mut I,
    out: &mut O,
    shelf: &mut F,
    store: K,
    cloud: L,
    _gate: &G,
) -> Ended<K, L>
    ensures { IsUnbegun input.old input.new out.old out.new result
        ⊎ IsRunByWords I.left I.faults O.written O.faults K.bodies K.faults K.is_broken L.bodies L.faults words.now
        input.old input.new out.old out.new store cloud result }
{
    match threads(alloc, words) {
        Ok(Some(_threads)) => session_plain(alloc, input, out, shelf, store, cloud),
        Ok(None) => ended(usage(out)),
        Err(_) => ended(Status::Memory),
    }
}

/// Writes how the program is used, as far as the output takes it. How the program ends then.
pub fn usage<O: Sink>(out: &mut O) -> Status
    ensures status { result ≡ Usage }
    ensures text { (was : List ℕ) → O.written out.old ≡ Some was → IsTextWritten was
        (codes "usage: boshd [--threads=N]\n") (O.written out.new) (O.faults out.old) (O.faults out.new) }
{
    let _ = write_all(out, USAGE);
    Status::Usage
}

// A session that did not begin.
fn ended<K: Keeper + Drop, L: Keeper + Drop>(status: Status) -> Ended<K, L>
    ensures status { result.status ≡ status }
    ensures no_site { result.site ≡ None }
    ensures none_refused { result.refused ≡ None }
{
    Ended {
        status,
        site: None,
        refused: None,
    }
}
