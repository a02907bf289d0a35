ghost use Rattle.std.specs.Option.{option_map_or};
ghost use Rattle.std.specs.Prelude.{◌≡◌, ◌∷◌, [], Bool, IfOk, List, OnErr, OnOk};
ghost use Rattle.bosh_answers.specs.Ends.{end_of, told_end};
ghost use Rattle.bosh_base.specs.declared.entry.Entry.{Entry};
ghost use Rattle.bosh_director.specs.Left.{told_left};
ghost use Rattle.bosh_moves.specs.Replies.{replies_in};
ghost use Rattle.bosh_records.specs.declared.records.Records.{Records};
ghost use Rattle.bosh_transcript.specs.Past.{Continues, Past, Proceeds};
ghost use Rattle.bosh_transcript.specs.Segments.{said_reply};

use crate::{Left, Opened};
use bosh_answers::{AnswerFault, Files};
use bosh_base::{Entry, Move, Name, Reply, Stemcell};
use bosh_input::Request;
use bosh_ports::Shelf;
use bosh_release_files::File;
use std::alloc::Global;

/// One that carries out commands, and has a history of its moves. Each call adds moves at its end, and `say` alone adds
/// a reply.
pub trait Director {
    /// What has happened so far, and what was told of it.
    ghost past: { Self → Past };

    /// The entries of its store.
    ghost entries: { Self → List Entry };

    /// What the entries left.
    ghost records: { Self → Records };

    /// Nothing more is done before a restart.
    ghost is_halted: { Self → Bool };

    /// What holds of it as long as each call keeps it: that its history is permitted, say.
    ghost is_good: { Self → Type 0 };

    /// What was told of what has happened so far: no reply is left out.
    fn moves(&self) -> &[Move]
        ensures moves { result.now ≡ (past self.now).moves }
        ensures replies { replies_in result.now ≡ replies_in (past self.now).story };

    /// The entries of its store, in order.
    fn entries(&self) -> &[Entry]
        ensures { result.now ≡ entries self.now };

    /// Whether nothing more is done before a restart.
    fn is_halted(&self) -> bool
        ensures { result ≡ is_halted self.now };

    /// Notes the reply of the command of a number. Where that is refused nothing has happened.
    fn say(&mut self, number: u32, reply: Reply) -> Result<(), AnswerFault>
        ensures said { OnOk result (Continues (past self.old) (said_reply number reply ∷ []) (past self.new)) }
        ensures refused { OnErr result (Continues (past self.old) [] (past self.new)) }
        ensures kept { is_good self.old → is_good self.new };

    /// Carries out a command, and gives its reply.
    fn answer<F: Shelf>(
        &mut self,
        alloc: Global,
        request: Request,
        files: &mut Files,
        shelf: &mut F,
    ) -> Result<Reply, AnswerFault>
        ensures proceeds { Proceeds (past self.old) (past self.new) }
        ensures kept { is_good self.old → is_good self.new };

    /// Opens the task of a request. One that opens none is refused.
    fn open<F: Shelf>(
        &mut self,
        alloc: Global,
        request: Request,
        files: &Files,
        shelf: &mut F,
    ) -> Result<Opened, AnswerFault>
        ensures proceeds { Proceeds (past self.old) (past self.new) }
        ensures kept { is_good self.old → is_good self.new };

    /// Carries tasks to their ends.
    fn carry_out(&mut self, tasks: &[u64]) -> Result<Left, AnswerFault>
        ensures proceeds { Proceeds (past self.old) (past self.new) }
        ensures kept { is_good self.old → is_good self.new };

    /// How a task ended, or why it has no end.
    fn told(&self, alloc: Global, task: u64, left: Left) -> Result<Reply, AnswerFault>
        ensures { IfOk result (λ reply. reply
            ≡ option_map_or (told_end task) (end_of (records self.now) task) (told_left left)) };

    /// Uploads a stemcell.
    fn upload_stemcell(&mut self, alloc: Global, stemcell: &Stemcell) -> Result<Reply, AnswerFault>
        ensures proceeds { Proceeds (past self.old) (past self.new) }
        ensures kept { is_good self.old → is_good self.new };

    /// Uploads the release that files are.
    fn upload_files(
        &mut self,
        alloc: Global,
        files: &[File],
        version: &[u8],
    ) -> Result<Reply, AnswerFault>
        ensures proceeds { Proceeds (past self.old) (past self.new) }
        ensures kept { is_good self.old → is_good self.new };

    /// Sets the cloud config that a text is.
    fn set_config(&mut self, alloc: Global, text: &[u8]) -> Result<Reply, AnswerFault>
        ensures proceeds { Proceeds (past self.old) (past self.new) }
        ensures kept { is_good self.old → is_good self.new };

    /// Deploys the manifest that a text is.
    fn deploy_text(&mut self, alloc: Global, dep: &Name, text: &[u8]) -> Result<Reply, AnswerFault>
        ensures proceeds { Proceeds (past self.old) (past self.new) }
        ensures kept { is_good self.old → is_good self.new };
}
