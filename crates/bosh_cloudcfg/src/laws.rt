//! Laws of checked configs, on a public function that does nothing.
ghost use Rattle.std.specs.Prelude.{◌≡◌, Ok};
ghost use Rattle.bosh_bands.specs.Apart.{AreApart};
ghost use Rattle.bosh_cloudcfg.specs.Check.{config_of_tree};
ghost use Rattle.bosh_cloudcfg.specs.declared.config.Config.{Config};
ghost use Rattle.bosh_yaml.specs.Tree.{Tree};

/// No two subnets of a config that `check` gives have an address in common, of whatever networks they are.
pub fn checked_subnets_are_apart()
    ensures { (tree : Tree) (config : Config) → config_of_tree tree ≡ Ok config → AreApart config.plan.subnets }
{}
