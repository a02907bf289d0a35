ghost use Rattle.std.specs.Prelude.{◌≡◌, ◌∷◌, [], codes, Ok, Err};
ghost use Rattle.bosh_asks.specs.declared.fault.BookFault.TheVariants.{Stopped};
ghost use Rattle.bosh_base.specs.declared.entry.Entry.TheVariants as entries;
ghost use Rattle.bosh_base.specs.declared.reply.Reply.TheVariants as replies;
ghost use Rattle.bosh_cloudcfg.specs.declared.config.Config.{Config};
ghost use Rattle.bosh_cloudcfg.specs.declared.fault.ConfigFault.TheVariants.{Missing};
ghost use Rattle.bosh_due.specs.Files.{put};
ghost use Rattle.bosh_due.specs.Outcomes.Outcome.{Notes, Refuses};
ghost use Rattle.bosh_due.specs.Uploads.{checked, config_read};
ghost use Rattle.bosh_lines.specs.declared.command.Command.TheVariants as commands;
ghost use Rattle.bosh_refusals.specs.Told.{book_told, config_told, yaml_told};
ghost use Rattle.bosh_yaml.specs.declared.fault.ReadFault.TheVariants.{Syntax};
ghost use Rattle.examples_replies.specs.Kept.{LooksForFirst, at_a_halt, file, going_on};
ghost use Rattle.examples_replies.specs.Shelves.{plain_deploy};

/// A block stands in the place of the one of its path.
pub fn files_are_kept()
    ensures behind { put (file (codes "b") (codes "2")) (file (codes "a") (codes "1") ∷ [])
        ≡ file (codes "a") (codes "1") ∷ file (codes "b") (codes "2") ∷ [] }
    ensures in_place { put (file (codes "a") (codes "2"))
        (file (codes "a") (codes "1") ∷ file (codes "b") (codes "1") ∷ [])
        ≡ file (codes "a") (codes "2") ∷ file (codes "b") (codes "1") ∷ [] }
{}

/// What files say is looked for first: a folder or a file that is not there is refused, also by a director that has halted.
pub fn files_are_looked_for_first()
    ensures no_folder { LooksForFirst (commands.UploadRelease (codes "d") (codes "1")) }
    ensures no_config { LooksForFirst (commands.UpdateCloudConfig (codes "c.yml")) }
    ensures no_manifest { LooksForFirst plain_deploy }
{}

/// A config that is none is refused before the director is asked, and one that is before it is set.
pub fn configs_are_told()
    ensures unread { config_read at_a_halt (codes "c") (Err (Syntax 3)) ≡ Refuses (yaml_told (Syntax 3)) }
    ensures faulty { checked at_a_halt (codes "c") (Err (Missing (codes "azs"))) ≡ Refuses
        (config_told (Missing (codes "azs"))) }
    ensures halted { (it : Config) → checked at_a_halt (codes "c") (Ok it) ≡ Refuses (book_told Stopped) }
    ensures set { (it : Config) → checked going_on (codes "c") (Ok it) ≡ Notes (entries.Config (codes "c"))
        replies.ConfigUpdated }
{}
