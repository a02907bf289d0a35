ghost use Rattle.examples_histories.specs.Scenes.{prepared};
ghost use Rattle.examples_histories.specs.KeptError.{kept_error};
ghost use Rattle.examples_histories.specs.Verdicts.{good, IsPermittedFrom, HasVerdict};

/// A restart that is stopped in its TaskError.
pub fn kept_error_examples()
    ensures right { IsPermittedFrom prepared kept_error }
    ensures lawful { HasVerdict prepared kept_error good }
{}
