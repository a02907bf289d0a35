ghost use Rattle.std.specs.Prelude.{Some};
ghost use Rattle.examples_histories.specs.Scenes.{prepared};
ghost use Rattle.examples_histories.specs.Verdicts.{HasVerdict, IsRefusedAt, good};
ghost use Rattle.examples_moments.specs.Borrowed.{borrowed};

/// A lost row that has the machine of another instance is not what the cloud has.
pub fn a_borrowed_machine_is_not_tied()
    ensures refused { IsRefusedAt prepared 9 borrowed }
    ensures breaks { HasVerdict prepared borrowed (record good { tied = Some 10 }) }
{}
