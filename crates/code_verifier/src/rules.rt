//! The rules up to V12, judged at one instruction from what is known of its stack, of the loops round it and of the
//! jumps before it.
ghost use Rattle.std.specs.Prelude.{◌≡◌, suc, ◌<◌, nat_eq, nat_lt, not, ◌&&◌, false, [], ◌∷◌, length, drop};
ghost use Rattle.helper_set.specs.Helpers.{parameter_kinds};
ghost use Rattle.template_code.specs.Instructions.{flow, target_of, is_misplaced, loop_named, pops, pushes};
ghost use Rattle.template_code.specs.Instructions.{slots_after};
ghost use Rattle.template_code.specs.declared.limits.TheConstants.{MAX_SLOTS, MAX_LOOPS};
ghost use Rattle.code_rules.specs.Costs.{is_empty};
ghost use Rattle.code_rules.specs.Rules.{has_invalid_target, kinds_fit, lacks_slots, leaves_slots, closes_wrongly};
ghost use Rattle.code_rules.specs.Rules.{lacks_loop};
ghost use Rattle.code_rules.specs.Table.{nest_after};
ghost use Rattle.code_verifier.specs.Inner.Marks.{is_marked};
ghost use Rattle.code_verifier.specs.Inner.Slots.{kinds_of};
ghost use Rattle.code_verifier.specs.Inner.Pass.{nest_of, broken_seen};

use crate::loops::Loops;
use crate::stack::Stack;
use crate::targets::Mark;
use code_rules::rule::Rule;
use helper_set::signature::Parameter;
use template_code::code::Code;
use template_code::flow::Flow;
use template_code::instr::Instr;
use template_code::limits::{MAX_INSTRUCTIONS, MAX_LOOPS, MAX_SLOTS};
use template_code::popped::Popped;

/// The first rule up to V12 that an instruction breaks.
pub fn broken_rule(
    code: &Code,
    index: usize,
    instr: Instr,
    mark: Mark,
    loops: &Loops,
    stack: &Stack,
) -> Option<Rule>
    requires inside { index < length code.now.instrs }
    ensures { result ≡ broken_seen code.now index instr mark loops.now stack.now }
{
    if index == MAX_INSTRUCTIONS {
        Some(Rule::V1)
    } else if !code.has_entries_of(instr) {
        Some(Rule::V2)
    } else if has_invalid_target(code, index, instr) {
        Some(Rule::V3)
    } else if !mark.agrees(loops.innermost()) {
        Some(Rule::V4)
    } else if lacks_slots(instr, stack) {
        Some(Rule::V5)
    } else if !kinds_fit(instr, stack) {
        Some(Rule::V6)
    } else if overfills(instr, stack) {
        Some(Rule::V7)
    } else if target_has_slots(mark, stack) || leaves_slots(instr, stack) {
        Some(Rule::V8)
    } else if opens_too_many(index, instr, loops) {
        Some(Rule::V9)
    } else if closes_wrongly(instr, loops) {
        Some(Rule::V10)
    } else if lacks_loop(instr, loops) {
        Some(Rule::V11)
    } else if is_misplaced(code, index, instr) {
        Some(Rule::V12)
    } else {
        None
    }
}

fn has_invalid_target(code: &Code, index: usize, instr: Instr) -> bool
    ensures { result ≡ has_invalid_target code.now index (target_of (flow instr)) }
{
    matches!(instr.flow().target(), Some(target) if target <= index || target >= code.instrs().len())
}

fn lacks_slots(instr: Instr, stack: &Stack) -> bool
    ensures { result ≡ lacks_slots (pops instr) (kinds_of stack.now) }
{
    stack.depth() < instr.popped().count()
}

fn kinds_fit(instr: Instr, stack: &Stack) -> bool
    ensures { result ≡ kinds_fit (pops instr) (kinds_of stack.now) }
{
    match instr.popped() {
        Popped::Nothing => true,
        Popped::One(parameter) => accepts(parameter, stack, 0),
        Popped::Two { top, below } => accepts(top, stack, 0) && accepts(below, stack, 1),
    }
}

// Whether the slot at that depth below the top has an accepted kind, if there is one.
fn accepts(parameter: Parameter, stack: &Stack, depth: usize) -> bool
    ensures { result
        ≡ kinds_fit (parameter_kinds parameter ∷ []) (drop depth (kinds_of stack.now)) }
{
    match stack.slot(depth) {
        None => true,
        Some(slot) => parameter.accepts(slot.kind),
    }
}

// Whether an instruction that finds the slots that it pops leaves too many.
fn overfills(instr: Instr, stack: &Stack) -> bool
    requires { lacks_slots (pops instr) (kinds_of stack.now) ≡ false }
    ensures { result
        ≡ nat_lt MAX_SLOTS (length (slots_after instr (pushes instr) (kinds_of stack.now))) }
{
    let left = stack.depth() - instr.popped().count();
    let limit = match instr.pushed() {
        None => MAX_SLOTS,
        Some(_) => MAX_SLOTS - 1,
    };
    instr.flow().goes_on() && left > limit
}

// Whether a jump goes to the instruction and its stack isn't empty.
fn target_has_slots(mark: Mark, stack: &Stack) -> bool
    ensures { result ≡ (is_marked mark && not (is_empty (kinds_of stack.now))) }
{
    mark.is_marked() && stack.depth() > 0
}

// Whether an instruction leaves slots that it must not leave.
fn leaves_slots(instr: Instr, stack: &Stack) -> bool
    ensures { result ≡ leaves_slots instr (kinds_of stack.now) }
{
    instr.flow().requires_empty_stack() && stack.depth() > instr.popped().count()
}

fn opens_too_many(_index: usize, instr: Instr, loops: &Loops) -> bool
    ensures { result
        ≡ nat_lt MAX_LOOPS (length (nest_after (flow instr) _index (nest_of loops.now))) }
{
    let depth = loops.depth();
    match instr.flow() {
        Flow::Open(_) => depth >= MAX_LOOPS,
        Flow::Close(_) => depth > MAX_LOOPS + 1,
        _ => depth > MAX_LOOPS,
    }
}

// Whether an instruction closes a loop otherwise than by going back to its start, or ends the run in a loop.
fn closes_wrongly(instr: Instr, loops: &Loops) -> bool
    ensures { result ≡ closes_wrongly (flow instr) (nest_of loops.now) }
{
    match instr.flow() {
        Flow::Close(start) => match loops.innermost() {
            None => true,
            Some(opener) => start <= opener || start - opener != 1,
        },
        Flow::End => loops.depth() > 0,
        _ => false,
    }
}

fn lacks_loop(instr: Instr, loops: &Loops) -> bool
    ensures { result ≡ lacks_loop (loop_named instr) (length (nest_of loops.now)) }
{
    matches!(instr.loop_named(), Some(depth) if depth >= loops.depth())
}

fn is_misplaced(code: &Code, index: usize, instr: Instr) -> bool
    requires { index < length code.now.instrs }
    ensures { result ≡ is_misplaced (flow instr) (nat_eq (suc index) (length code.now.instrs)) }
{
    let end = code.instrs().len();
    instr.flow().is_misplaced(index + 1 == end)
}
