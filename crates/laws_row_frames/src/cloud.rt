ghost use Rattle.std.specs.Prelude.{◌≡◌, true, [], ◌∷◌, ◌++◌, List};
ghost use Rattle.bosh_base.specs.declared.digest.Digest.{Digest};
ghost use Rattle.bosh_base.specs.declared.entry.Entry.{Entry};
ghost use Rattle.bosh_base.specs.declared.key.KeyWork.{KeyWork};
ghost use Rattle.laws_effects.specs.Following.{MayFollow};
ghost use Rattle.laws_effects.specs.Holders.{JoinsTheSame};
ghost use Rattle.laws_effects.specs.Orderly.{is_new_call};
ghost use Rattle.laws_row_facts.specs.Cloud.{CloudFacts};
ghost use Rattle.laws_row_frames.specs.Others.{is_of_instance};

/// What may be done next keeps the facts of the cloud, where its call has a new number and attaches disks to machines
/// of their owners alone, and where a loss is of a machine of an instance.
pub fn an_entry_keeps_the_facts_of_the_cloud()
    ensures { (built : KeyWork → List Digest → Digest) (effects : List Entry) (entry : Entry) → CloudFacts effects →
        MayFollow built effects entry → is_new_call effects entry → JoinsTheSame effects entry →
        is_of_instance effects entry ≡ true → CloudFacts (effects ++ entry ∷ []) }
{}
