//! What an instruction pushes and writes, and what it does to what is known of the stack.
ghost use Rattle.std.specs.Prelude.{◌≡◌, if◌then◌else◌, [], length, take, drop, slice_get, unwrap_or, IfOk, OnOk};
ghost use Rattle.code_rules.specs.Bounds.{at_most, plus_bound, times_bound, sum_of};
ghost use Rattle.code_rules.specs.Costs.{top, text_bound, helper_bound, pushed_bounds};
ghost use Rattle.template_code.specs.Instructions.{pushes, slots_after};
ghost use Rattle.template_code.specs.declared.instr.Instr.TheVariants.{Item};
ghost use Rattle.code_verifier.specs.Inner.Limited.{bound_within, cost_within};
ghost use Rattle.code_verifier.specs.Inner.Pass.{own_cost};
ghost use Rattle.code_verifier.specs.Inner.Slots.{kinds_of, bounds_of, bound_each};

use crate::bound::Bound;
use crate::cost::Cost;
use crate::polynomial::is_within_limit;
use crate::stack::Stack;
use helper_set::helper::Helper;
use helper_set::kind::Kind;
use helper_set::limits::{MAX_NUMBER_LENGTH, MAX_TRUTH_LENGTH};
use helper_set::signature::{Growth, signature};
use std::alloc::{AllocError, Global};
use template_code::code::Code;
use template_code::instr::Instr;
use template_code::limits::MAX_ESCAPE_GROWTH;

/// The length of what the slot that an instruction pushes prints as, at most; zero if it pushes none, and none if a
/// coefficient is too large.
pub fn pushed_bound(
    alloc: Global,
    code: &Code,
    instr: Instr,
    stack: &Stack,
) -> Result<Option<Bound>, AllocError>
    ensures { IfOk result
        (λ bound. bound ≡ bound_within (top (pushed_bounds code.now instr (bounds_of stack.now)))) }
{
    match instr {
        Instr::Root(_) | Instr::Key(_) => Ok(Some(Bound::all_data(alloc)?)),
        Instr::Item(depth, path) => item_bound(alloc, code, depth, path, stack),
        Instr::Index(_) | Instr::Number(_) => Ok(Some(Bound::at_most(alloc, MAX_NUMBER_LENGTH)?)),
        Instr::First(_) | Instr::Last(_) | Instr::Truth(_) | Instr::Test => {
            Ok(Some(Bound::at_most(alloc, MAX_TRUTH_LENGTH)?))
        }
        Instr::Text(text) => text_bound(alloc, code, text),
        Instr::Show => argument_bounds(alloc, false, stack),
        Instr::Escape => scaled(alloc, MAX_ESCAPE_GROWTH, false, stack),
        Instr::Call(helper) => helper_bound(alloc, helper, stack),
        Instr::Emit(_)
        | Instr::Print
        | Instr::Jump(_)
        | Instr::Branch(_)
        | Instr::Each(_)
        | Instr::Next(_)
        | Instr::Halt => Ok(Some(Bound::zero(alloc))),
    }
}

/// The cost of a region with one more instruction; none if a coefficient is too large.
pub fn own_cost(
    alloc: Global,
    code: &Code,
    instr: Instr,
    stack: &Stack,
    spent: &Cost,
) -> Result<Option<Cost>, AllocError>
    ensures { IfOk result (λ sum. sum ≡ cost_within (own_cost code.now instr stack.now spent.now)) }
{
    match instr {
        Instr::Emit(text) => {
            spent.with_step(alloc, &Bound::at_most(alloc, text_length(code, text))?)
        }
        Instr::Print => match stack.top() {
            None => spent.with_step(alloc, &Bound::zero(alloc)),
            Some(slot) => spent.with_step(alloc, &slot.bound),
        },
        _ => spent.with_step(alloc, &Bound::zero(alloc)),
    }
}

/// Changes the stack as an instruction does; the slot that it pushes, if it pushes one, has that bound.
pub fn apply_effect(instr: Instr, bound: Bound, stack: &mut Stack) -> Result<(), AllocError>
    ensures kinds { OnOk result
        (kinds_of stack.new ≡ slots_after instr (pushes instr) (kinds_of stack.old)) }
    ensures bounds { OnOk result
        (bounds_of stack.new
        ≡ slots_after instr (bound_each bound (pushes instr)) (bounds_of stack.old)) }
{
    stack.pop_many(instr.popped().count());
    if !instr.flow().goes_on() {
        stack.clear();
        return Ok(());
    }
    match instr.pushed() {
        None => Ok(()),
        Some(kind) => stack.push(kind, bound),
    }
}

// The bound of what a path finds in an item: that of the innermost loop is the one that costs are measured by.
fn item_bound(
    alloc: Global,
    _code: &Code,
    depth: usize,
    _path: usize,
    _stack: &Stack,
) -> Result<Option<Bound>, AllocError>
    ensures { IfOk result
        (λ bound. bound ≡ bound_within
        (top (pushed_bounds _code.now (Item depth _path) (bounds_of _stack.now)))) }
{
    if depth == 0 {
        Ok(Some(Bound::item_data(alloc)?))
    } else {
        Ok(Some(Bound::all_data(alloc)?))
    }
}

fn text_bound(alloc: Global, code: &Code, text: usize) -> Result<Option<Bound>, AllocError>
    ensures { IfOk result (λ bound. bound ≡ bound_within (text_bound code.now text)) }
{
    let length = text_length(code, text);
    if is_within_limit(length) {
        Ok(Some(Bound::at_most(alloc, length)?))
    } else {
        Ok(None)
    }
}

// The length of the text that a helper's result prints as, at most; none if a coefficient is too large.
fn helper_bound(alloc: Global, helper: Helper, stack: &Stack) -> Result<Option<Bound>, AllocError>
    ensures { IfOk result
        (λ bound. bound ≡ bound_within (helper_bound helper (bounds_of stack.now))) }
{
    let signature = signature(helper);
    match signature.gives {
        Kind::Data => Ok(Some(Bound::all_data(alloc)?)),
        Kind::Text | Kind::Number | Kind::Truth => {
            grown(alloc, signature.growth, signature.second.is_some(), stack)
        }
    }
}

// The bound of a result that grows from its arguments, one or two.
fn grown(
    alloc: Global,
    growth: Growth,
    has_two: bool,
    stack: &Stack,
) -> Result<Option<Bound>, AllocError>
    ensures { IfOk result (λ bound. bound ≡ bound_within (plus_bound (times_bound growth.times
        (sum_of (take (if has_two then 2 else 1) (bounds_of stack.now)))) (at_most growth.plus))) }
{
    match scaled(alloc, growth.times, has_two, stack)? {
        None => Ok(None),
        Some(scaled) => scaled.plus(alloc, &Bound::at_most(alloc, growth.plus)?),
    }
}

// That many times the arguments' bounds; a result that doesn't grow needs none of them to fit.
fn scaled(
    alloc: Global,
    count: u64,
    has_two: bool,
    stack: &Stack,
) -> Result<Option<Bound>, AllocError>
    ensures { IfOk result (λ bound. bound
        ≡ bound_within
        (times_bound count (sum_of (take (if has_two then 2 else 1) (bounds_of stack.now))))) }
{
    if count == 0 {
        return Ok(Some(Bound::zero(alloc)));
    }
    match argument_bounds(alloc, has_two, stack)? {
        None => Ok(None),
        Some(sum) => sum.times(alloc, count),
    }
}

// The sum of the bounds of the one slot or the two at the top.
fn argument_bounds(alloc: Global, has_two: bool, stack: &Stack) -> Result<Option<Bound>, AllocError>
    ensures { IfOk result
        (λ sum. sum
        ≡ bound_within (sum_of (take (if has_two then 2 else 1) (bounds_of stack.now)))) }
{
    let empty = Bound::zero(alloc);
    if !has_two {
        return plus_bound(alloc, stack, 0, &empty);
    }
    match plus_bound(alloc, stack, 1, &empty)? {
        None => Ok(None),
        Some(below) => plus_bound(alloc, stack, 0, &below),
    }
}

// The sum of the bound of the slot at that depth, if there is one, and another.
fn plus_bound(
    alloc: Global,
    stack: &Stack,
    depth: usize,
    other: &Bound,
) -> Result<Option<Bound>, AllocError>
    ensures { IfOk result (λ sum. sum
        ≡ bound_within (plus_bound (top (drop depth (bounds_of stack.now))) other.now)) }
{
    match stack.slot(depth) {
        None => Bound::zero(alloc).plus(alloc, other),
        Some(slot) => slot.bound.plus(alloc, other),
    }
}

// The length of a text of the code, in bytes.
fn text_length(code: &Code, text: usize) -> u64
    ensures { result ≡ length (unwrap_or (slice_get code.now.texts text) []) }
{
    match code.texts().get(text) {
        None => 0,
        Some(text) => text.as_str().len() as u64,
    }
}
