ghost use Rattle.std.specs.Prelude.{◌≡◌, IfOk, IfSome, None, OnErr, OnOk, Some};
ghost use Rattle.bosh_base.specs.declared.reply.Refusal.{Refusal};
ghost use Rattle.bosh_desk.specs.SiteFaults.{site_told};
ghost use Rattle.bosh_program.specs.Ends.{IsLineWritten, IsPlain, stores_back, stores_left};
ghost use Rattle.bosh_report.specs.Refusal.{refusal_line};
ghost use Rattle.bosh_transcript.specs.declared.status.Status.TheVariants as statuses;

use bosh_answers::AnswerFault;
use bosh_base::Reply;
use bosh_desk::refusal_of;
use bosh_directing::Directing;
use bosh_ports::{Keeper, Shelf, Sink, Source};
use bosh_report::say;
use bosh_session::carry_out_all;
use bosh_transcript::{Status, write_all};
use bosh_world::{Site, SiteFault, Unloaded};
use std::alloc::Global;

/// How a session ended, and what it leaves. `close` lets that go.
pub struct Ended<K: Keeper, L: Keeper> {
    pub status: Status,
    /// The site as the session left it, where it was loaded.
    pub site: Option<Site<K, L>>,
    /// The keepers that were not loaded, with status `Unloaded`.
    pub refused: Option<Unloaded<K, L>>,
}

impl<K: Keeper + Drop, L: Keeper + Drop> Ended<K, L> {
    /// How the session ended, for a caller that wants nothing of what it leaves.
    pub fn close(self) -> Status
        ensures { result ≡ self.status }
    {
        let Ended {
            status,
            site,
            refused: _refused,
        } = self;
        close_site(site);
        status
    }

    /// How the session ended, and the two keepers that it leaves, where there are any.
    pub fn into_stores(self) -> (Status, Option<(K, L)>)
        ensures status { result.0 ≡ self.status }
        ensures stores { result.1 ≡ stores_left self.site self.refused }
    {
        let Ended {
            status,
            site,
            refused,
        } = self;
        (status, stores_of(site, refused))
    }
}

// The keepers of a site, or those that were not loaded.
fn stores_of<K: Keeper + Drop, L: Keeper + Drop>(
    site: Option<Site<K, L>>,
    refused: Option<Unloaded<K, L>>,
) -> Option<(K, L)>
    ensures { result ≡ stores_left site refused }
{
    match site {
        Some(site) => {
            drop(refused);
            Some(site.into_stores())
        }
        None => refused_stores(refused),
    }
}

fn refused_stores<K: Keeper + Drop, L: Keeper + Drop>(
    refused: Option<Unloaded<K, L>>,
) -> Option<(K, L)>
    ensures { result ≡ stores_back refused }
{
    match refused {
        Some(Unloaded { store, cloud, .. }) => Some((store, cloud)),
        None => None,
    }
}

// A site is taken apart, since to let one go as a whole is dear to prove.
fn close_site<K: Keeper + Drop, L: Keeper + Drop>(site: Option<Site<K, L>>) {
    match site {
        Some(site) => {
            let _stores = site.into_stores();
        }
        None => {}
    }
}

/// Carries out the commands of an input, one after the other, over two keepers, and writes what each is answered.
pub fn session_plain<I: Source, O: Sink, F: Shelf, K: Keeper + Drop, L: Keeper + Drop>(
    alloc: Global,
    input: &mut I,
    out: &mut O,
    shelf: &mut F,
    store: K,
    cloud: L,
) -> Ended<K, L>
    ensures { IsPlain I.left I.faults O.written O.faults K.bodies K.faults K.is_broken L.bodies L.faults
        input.old input.new out.old out.new store cloud result }
{
    match Site::load(alloc, store, cloud) {
        Ok(site) => {
            let mut directing = Directing { site };
            let status = carry_out_all(alloc, input, out, shelf, &mut directing);
            Ended {
                status,
                site: Some(directing.site),
                refused: None,
            }
        }
        Err(unloaded) => not_loaded(alloc, out, unloaded),
    }
}

// The end of a session over keepers that were not loaded.
fn not_loaded<O: Sink, K: Keeper + Drop, L: Keeper + Drop>(
    alloc: Global,
    out: &mut O,
    unloaded: Unloaded<K, L>,
) -> Ended<K, L>
    ensures no_site { result.site ≡ None }
    ensures refused { IfSome result.refused (λ back. (back ≡ unloaded) × (result.status ≡ statuses.Unloaded)
        × IsLineWritten O.written O.faults unloaded.fault out.old out.new) }
    ensures memory { result.refused ≡ None → (result.status ≡ statuses.Memory) × (out.new ≡ out.old) }
{
    match tell_fault(alloc, out, &unloaded.fault) {
        Ok(()) => Ended {
            status: Status::Unloaded,
            site: None,
            refused: Some(unloaded),
        },
        Err(AnswerFault::Memory) => {
            drop(unloaded);
            Ended {
                status: Status::Memory,
                site: None,
                refused: None,
            }
        }
    }
}

/// Writes the line of a fault, as far as the output takes it.
pub(crate) fn tell_fault<O: Sink>(
    alloc: Global,
    out: &mut O,
    fault: &SiteFault,
) -> Result<(), AnswerFault>
    ensures line { OnOk result (IsLineWritten O.written O.faults fault.now out.old out.new) }
    ensures memory { OnErr result (out.new ≡ out.old) }
{
    let text = line_of(alloc, fault)?;
    let _ = write_all(out, text.as_slice());
    Ok(())
}

fn line_of(alloc: Global, fault: &SiteFault) -> Result<Vec<u8>, AnswerFault>
    ensures line { IfOk result (λ line. (told : Refusal) × (site_told fault.now ≡ Some told)
        × (line.items ≡ refusal_line told)) }
{
    let reply = Reply::Refused(refusal_of(alloc, fault)?);
    let line = say(alloc, &reply);
    drop(reply);
    Ok(line?)
}
