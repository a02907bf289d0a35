//! Compile machines and the cloud at each part of a permitted move: what is recorded of each is what the cloud has.
#![tactic(auto)]

ghost use Rattle.laws_compile_machines_kept.specs.CompileMachines.{AreAsRecorded, AreOwnersKept};
ghost use Rattle.laws_moves.specs.Parts.{IsKeptByParts};

/// Each part of a move keeps all facts of each compile machine and the cloud: its machine is the only one there that was
/// made for it, before its call in doubt or after it, and where nothing is recorded there is none.
pub fn compile_machines_stay_as_recorded()
    ensures { IsKeptByParts AreAsRecorded }
{}

/// What a compile machine was before its open call has all these facts until the cloud performs the call, and from then
/// on what the answer will leave of it has them.
pub fn answers_leave_compile_machines_as_recorded()
    ensures { IsKeptByParts AreOwnersKept }
{}
