//! The work of a task, entry by entry.
ghost use Rattle.std.specs.Prelude.{◌≡◌, ◌≤◌, ℕ, ◌+◌, List, None, Some, false, true};
ghost use Rattle.std.specs.Option.{option_map};
ghost use Rattle.bosh_base.specs.declared.answer.Answer.{Answer};
ghost use Rattle.bosh_base.specs.declared.call.Call.{Call};
ghost use Rattle.bosh_base.specs.declared.entry.Begin.{Begin};
ghost use Rattle.bosh_base.specs.declared.entry.Entry.TheVariants as entries;
ghost use Rattle.bosh_base.specs.declared.inst.Inst.{Inst};
ghost use Rattle.bosh_base.specs.declared.key.Key.{Key};
ghost use Rattle.bosh_base.specs.declared.owner.Owner.TheVariants.{Instance};
ghost use Rattle.bosh_history.specs.Steps.{compiles};
ghost use Rattle.bosh_rows.specs.Same.{same_inst, same_owner};
ghost use Rattle.bosh_rows.specs.SoundSnapshot.{are_distinct};
ghost use Rattle.bosh_work.specs.Line.{given_line};
ghost use Rattle.bosh_work.specs.Work.{given, taken};
ghost use Rattle.bosh_work.specs.declared.part.MachineName.{MachineName};
ghost use Rattle.bosh_work.specs.declared.work.Work.{Work};
ghost use Rattle.laws_stands.specs.LineStands.{place_of};
ghost use Rattle.laws_stands.specs.Told.{Told, telling};
ghost use Rattle.laws_stands.specs.WorkStands.{WorkStands, asked_line, asks, end_of, places_of};

/// The work of a task stands after a call of an instance began.
pub fn work_stands_after_a_call_begins()
    ensures { (told : Told) (n number worker : ℕ) (call : Call) (swept : List MachineName) (work new : Work)
        (i : Inst)
        → WorkStands told n swept work
        → are_distinct same_inst (told.known.task n).changed ≡ true
        → are_distinct same_inst (told.known.task n).to_ping ≡ true
        → are_distinct same_inst (told.known.task n).obsolete ≡ true
        → number ≡ told.known.last_call + 1
        → number ≤ 18446744073709551615
        → (told.known.task n).failed ≡ None
        → new ≡ taken work (places_of (told.known.task n) i)
        → WorkStands
        (telling told
        (entries.Begin (record { n = number; task = n; worker = worker; owner = Instance i; call = call }))) n
        swept new }
{}

/// .. and after it ended, where no owner has two open calls and the failure is the one that is told.
pub fn work_stands_after_a_call_ends()
    ensures { (told : Told) (n number worker : ℕ) (call : Call) (answer : Answer) (swept : List MachineName)
        (work new : Work) (i : Inst)
        → WorkStands told n swept work
        → are_distinct same_inst (told.known.task n).changed ≡ true
        → are_distinct same_inst (told.known.task n).to_ping ≡ true
        → are_distinct same_inst (told.known.task n).obsolete ≡ true
        → ((key : Key) → compiles key call ≡ false)
        → 1 ≤ number
        → number ≤ told.known.last_call
        → told.known.begun number
        ≡ Some (record { n = number; task = n; worker = worker; owner = Instance i; call = call })
        → told.calls number ≡ Some (record { n = number; task = n; worker = worker; owner = Instance i; call = call })
        → ((c : ℕ) (d : Begin) → told.calls c ≡ Some d → same_owner d.owner (Instance i) ≡ true → c ≡ number)
        → new ≡ record (given work (places_of (told.known.task n) i)) {
          pings = asked_line (asks call answer)
              (given_line work.pings (place_of same_inst i (told.known.task n).to_ping))
              (place_of same_inst i (told.known.task n).to_ping);
          failed = new.failed;
        }
        → new.failed ≡ option_map (end_of (telling told (entries.End (record { n = number; answer = answer }))).known)
        ((telling told (entries.End (record { n = number; answer = answer }))).known.task n).failed
        → WorkStands (telling told (entries.End (record { n = number; answer = answer }))) n swept new }
{}
