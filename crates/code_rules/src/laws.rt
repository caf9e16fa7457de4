//! Laws over the definitions, for all code: functions that do nothing, whose contracts are the laws.
ghost use Rattle.code_rules.specs.Shown.Laws.{EachHasTable, TableIsOne, EachIsJudged, NoneIsBoth, ViolationIsOne};
ghost use Rattle.code_rules.specs.Shown.Laws.{EachIsFormed, NoneIsBothFormed, FormedIsLimited, FormedViolatesV13};
ghost use Rattle.code_rules.specs.Shown.Laws.{EffectsAreRuled, EffectsAreKinded, EffectsAreSteps, JumpsLand, LoopsRepeat};
ghost use Rattle.code_rules.specs.Shown.Laws.{BoundsFollow, OwnRegionGrows, RegionOpens, RegionCloses, WholeHasNoItem};
ghost use Rattle.code_rules.specs.Shown.Laws.{NoneEndsInZero, PrintedKeepsValues, BudgetIsSharper};

/// Code has one table.
pub fn law_code_has_one_table()
    ensures table { EachHasTable }
    ensures one { TableIsOne }
{}

/// Code has one violation, or it is accepted. V13 aside, it breaks a rule or is well formed, and not both.
pub fn law_code_has_one_verdict()
    ensures judged { EachIsJudged }
    ensures never_both { NoneIsBoth }
    ensures one_violation { ViolationIsOne }

    // V13 aside
    ensures formed { EachIsFormed }
    ensures never_both_formed { NoneIsBothFormed }
    ensures limited { FormedIsLimited }
    ensures only_V13 { FormedViolatesV13 }
{}

/// The rules ask of an instruction what the machine needs.
pub fn law_rules_are_what_the_machine_needs()
    ensures ruled { EffectsAreRuled }
    ensures kinded { EffectsAreKinded }
    ensures steps { EffectsAreSteps }
{}

/// A run of well-formed code leaves a loop by its end alone, and comes into one by its start alone.
pub fn law_jumps_stay_in_their_loops()
    ensures land { JumpsLand }
    ensures repeat { LoopsRepeat }
{}

/// Bounds and costs are what one pass over the instructions adds up.
pub fn law_regions_are_what_a_pass_adds_up()
    ensures bounds { BoundsFollow }
    ensures own { OwnRegionGrows }
    ensures opens { RegionOpens }
    ensures closes { RegionCloses }
{}

/// The cost of well-formed code is its budget.
pub fn law_budget_is_all_of_the_cost()
    ensures { WholeHasNoItem }
{}

/// No list of a budget ends in a zero.
pub fn law_budget_ends_in_no_zero()
    ensures { NoneEndsInZero }
{}

/// A polynomial as it is printed has the value of the polynomial.
pub fn law_printed_polynomial_keeps_its_value()
    ensures { PrintedKeepsValues }
{}

/// The budget is at most the one that takes each item for as large as all of the data.
pub fn law_budget_is_at_most_the_coarse_one()
    ensures { BudgetIsSharper }
{}
