ghost use Rattle.std.specs.Prelude.{◌≡◌, true, List, []};
ghost use Rattle.bosh_base.specs.declared.entry.Entry.{Entry};
ghost use Rattle.bosh_base.specs.declared.inst.Inst.{Inst};
ghost use Rattle.bosh_base.specs.declared.row.Row.{Row};
ghost use Rattle.laws_row_facts.specs.Cloud.{CloudFacts};
ghost use Rattle.laws_row_facts.specs.Rows.{RowFacts, are_row_facts};
ghost use Rattle.bosh_rows.specs.After.{bare};

/// Where nothing was done to the cloud, its facts hold, and those of a row of which nothing is recorded.
#[tactic(auto, using(crate::proofs::StartLemmas::start_cloud, crate::proofs::StartLemmas::start_row))]
pub fn nothing_was_done()
    ensures cloud { CloudFacts [] }
    ensures row { (i : Inst) → RowFacts [] (bare i) }
{}

/// A row that meets the tests has the facts.
#[tactic(auto, using(crate::proofs::StartLemmas::tested_row))]
pub fn what_meets_the_tests_has_the_facts()
    ensures { (effects : List Entry) (row : Row) → are_row_facts effects row ≡ true → RowFacts effects row }
{}
