// The language: definitions in specs/, and what is true of it. Each function below has a theorem for its contract.
#![tactic(auto)]

ghost use Rattle.language.specs.Statements.{DeeperSame, AlikeSame, FreeMatter, ThereAgain};

pub fn depth_is_no_matter()
    ensures { DeeperSame }
{}

pub fn places_hold()
    ensures { ThereAgain }
{}

pub fn only_free_names_matter()
    ensures { FreeMatter }
{}

pub fn names_do_not_matter()
    ensures { AlikeSame }
{}
