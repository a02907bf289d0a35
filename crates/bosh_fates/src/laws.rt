ghost use Rattle.std.specs.Prelude.{◌≡◌, List, count_by, find};
ghost use Rattle.std.specs.Option.{option_map};
ghost use Rattle.bosh_base.specs.declared.method.Method.{Method};
ghost use Rattle.bosh_base.specs.declared.owner.Owner.{Owner};
ghost use Rattle.bosh_fates.specs.FateRuns.{fates_after_all, is_its_call};
ghost use Rattle.bosh_fates.specs.Fates.{decision, due_count};
ghost use Rattle.bosh_fates.specs.declared.fate.Doom.{Doom};

/// A fate fires on the k-th call of its method and owner after it was set, and on no other, whatever calls come between:
/// of those whose call it is, the first that was set decides, and each is counted.
pub fn fates_meet_their_calls()
    ensures decided { (calls : List (Method × Owner)) (dooms : List Doom) (method : Method) (owner : Owner) →
        decision method owner (fates_after_all calls dooms)
        ≡ option_map (λ doom. doom.fate) (find (is_its_call calls method owner) dooms) }
    ensures met { (calls : List (Method × Owner)) (dooms : List Doom) (method : Method) (owner : Owner) →
        due_count method owner (fates_after_all calls dooms) ≡ count_by (is_its_call calls method owner) dooms }
{}
