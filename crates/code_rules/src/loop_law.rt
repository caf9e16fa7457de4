//! What a run through nested loops costs at most: a law on numbers alone, with neither instructions nor data. The law
//! stands on a function that does nothing; `specs/Inner/` has what it speaks of.
ghost use Rattle.code_rules.specs.Inner.Run.{RunsKeepToBudget};

/// Each run costs at most the budget of its course.
pub fn law_runs_keep_to_their_budget()
    ensures { RunsKeepToBudget }
{}
