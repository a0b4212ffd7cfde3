// The reference model: definitions in specs/, and what is true of it. Each function below has a theorem for its contract.
#![tactic(auto)]

ghost use Rattle.model.specs.Known.{core, everything};
ghost use Rattle.model.specs.Statements.{QuietQuiet, SpelledOnce, RefusedSame, BackAgain, StaysFine, StaysProgram};
ghost use Rattle.model.specs.Whole.{Means};
ghost use Rattle.model.specs.Worked.{WorkedTable};
ghost use Rattle.model.specs.Guards.{Guards};
ghost use Rattle.model.specs.Renaming.{UsesListed, NamesSpliced};

pub fn quiet_is_quiet()
    ensures { QuietQuiet }
{}

pub fn commands_are_spelled_once()
    ensures { SpelledOnce }
{}

pub fn meaning_is_kept()
    ensures { Means everything }
{}

pub fn core_keeps_meaning()
    ensures { Means core }
{}

pub fn refusals_change_nothing()
    ensures { RefusedSame }
{}

pub fn going_back_restores()
    ensures { BackAgain }
{}

pub fn programs_stay_fine()
    ensures { StaysFine }
{}

pub fn programs_stay_programs()
    ensures { StaysProgram }
{}

pub fn worked_formula()
    ensures { WorkedTable }
{}

pub fn refusals_guard_meaning()
    ensures { Guards }
{}

pub fn uses_are_listed()
    ensures { UsesListed }
{}

pub fn names_are_spliced()
    ensures { NamesSpliced }
{}
