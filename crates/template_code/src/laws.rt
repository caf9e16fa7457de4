//! Laws over the definitions, for all code and all runs: functions that do nothing, whose contracts are the laws.
ghost use Rattle.template_code.specs.Shown.Laws.{RunsEndAlike, EachLoopHasItem, RunsReadWhatIsFound};
ghost use Rattle.helper_set.specs.Escape.{html_escaped};
ghost use Rattle.template_code.specs.declared.limits.TheConstants.{MAX_ESCAPE_GROWTH};
ghost use Rattle.std.specs.Prelude.{ℕ, ◌*◌, ◌≤◌, List, length, FitsSigned};
ghost use Rattle.std.specs.Int.{w64};

/// A run is determined by the state in which it begins.
pub fn law_runs_are_determined()
    ensures { RunsEndAlike }
{}

/// A loop is open only while it is at an item.
pub fn law_open_loops_have_an_item()
    ensures { EachLoopHasItem }
{}

/// A run reads no more of the root than what its code's paths find, and of the body's data, where a helper looks a path
/// up, what that path finds, if it is a literal before the call.
pub fn law_runs_read_what_is_found()
    ensures { RunsReadWhatIsFound }
{}

/// An escaped text is at most six times as long.
pub fn law_escaped_text_is_within_growth()
    ensures { (s : List ℕ) → length (html_escaped s) ≤ MAX_ESCAPE_GROWTH * length s }
{}

/// A number of 64 bits is from -2^63 to 2^63 - 1: so is each that code pushes.
pub fn law_number_has_64_bits(_number: i64)
    ensures { FitsSigned w64 _number }
{}
