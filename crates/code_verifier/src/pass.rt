//! The pass over the code.
ghost use Rattle.std.specs.Prelude.{◌≡◌, ◌<◌, true, length, IfOk, OnOk, IsNone};
ghost use Rattle.template_code.specs.Code.{IsTyped};
ghost use Rattle.template_code.specs.Instructions.{flow, target_of, pushes, slots_after};
ghost use Rattle.code_rules.specs.Costs.{cost_fits, bounds_after};
ghost use Rattle.code_verifier.specs.Inner.Finding.{IsFindingOf};
ghost use Rattle.code_verifier.specs.Inner.Limited.{cost_within};
ghost use Rattle.code_verifier.specs.Inner.Marks.{innermost, mark_at, with_target};
ghost use Rattle.code_verifier.specs.Inner.Pass.{nest_of, takes_part, loops_after, cost_after, own_cost, all_fits};
ghost use Rattle.code_verifier.specs.Inner.Pass.{judged};
ghost use Rattle.code_verifier.specs.Inner.Slots.{kinds_of, bounds_of};

use crate::budget::Budget;
use crate::cost::Cost;
use crate::effect::{apply_effect, own_cost, pushed_bound};
use crate::loops::{Loops, OpenLoop};
use crate::rules::broken_rule;
use crate::stack::Stack;
use crate::targets::Targets;
use code_rules::rule::Rule;
use std::alloc::{AllocError, Global};
use template_code::code::Code;
use template_code::flow::Flow;
use template_code::instr::Instr;
use template_code::laws::law_number_has_64_bits;
use template_code::limits::MAX_INSTRUCTIONS;

/// What the pass finds.
#[derive(Drop)]
pub enum Finding {
    /// The code may run, within that budget.
    Accepted { budget: Budget },
    /// The first index at which a rule is broken, and the first rule that is broken there.
    Violation { index: usize, rule: Rule },
}

// What is known before an instruction: the slots, the jumps so far, the open loops, and the cost so far of the region
// that the instruction is in.
#[derive(Drop)]
struct Known {
    stack: Stack,
    targets: Targets,
    loops: Loops,
    cost: Cost,
}

/// Goes over the code once, and keeps what is known before the next instruction.
pub fn pass(alloc: Global, code: &Code) -> Result<Finding, AllocError>
    ensures { IfOk result (IsFindingOf code.now) }
{
    if code.instrs().is_empty() {
        return Ok(Finding::Violation {
            index: 0,
            rule: Rule::V1,
        });
    }
    let count = code.instrs().len().min(MAX_INSTRUCTIONS + 1);
    let mut known = Known {
        stack: Stack::new(alloc),
        targets: Targets::new(alloc, count)?,
        loops: Loops::new(alloc),
        cost: Cost::none(alloc),
    };
    for (index, instr) in code.instrs().iter().enumerate() {
        if let Some(rule) = judge(alloc, code, index, *instr, &mut known)? {
            return Ok(Finding::Violation { index, rule });
        }
    }
    Ok(Finding::Accepted {
        budget: Budget::of_whole(known.cost)?,
    })
}

// The first rule that an instruction breaks. If it breaks none, `known` is then what is known after it.
fn judge(
    alloc: Global,
    code: &Code,
    index: usize,
    instr: Instr,
    known: &mut Known,
) -> Result<Option<Rule>, AllocError>
    requires inside { index < length code.now.instrs }
    ensures rule { IfOk result (λ rule. rule
        ≡ judged code.now index instr (mark_at known.old.targets index) known.old.loops
        known.old.stack known.old.cost) }
    ensures kinds { IfOk result (λ rule. IsNone rule →
        kinds_of known.new.stack ≡ slots_after instr (pushes instr) (kinds_of known.old.stack)) }
    ensures bounds { IfOk result (λ rule. IsNone rule →
        bounds_of known.new.stack ≡ bounds_after code.now instr (bounds_of known.old.stack)) }
    ensures targets { IfOk result (λ rule. IsNone rule → known.new.targets
        ≡ with_target (target_of (flow instr)) (innermost (nest_of known.old.loops))
        known.old.targets) }
    ensures loops { IfOk result (λ rule. IsNone rule → known.new.loops
        ≡ loops_after (flow instr) index (takes_part known.old.stack)
        (own_cost code.now instr known.old.stack known.old.cost) known.old.loops) }
    ensures cost { IfOk result (λ rule. IsNone rule → known.new.cost
        ≡ cost_after (flow instr) known.old.loops
        (own_cost code.now instr known.old.stack known.old.cost)) }
    ensures typed { IsTyped instr }
{
    check_type(instr);
    let mark = known.targets.mark_at(index);
    if let Some(rule) = broken_rule(code, index, instr, mark, &known.loops, &known.stack) {
        return Ok(Some(rule));
    }
    if go_on(alloc, code, index, instr, known)? {
        Ok(None)
    } else {
        Ok(Some(Rule::V13))
    }
}

// Whether no coefficient is too large after an instruction. If so, `known` is then what is known after it.
fn go_on(
    alloc: Global,
    code: &Code,
    index: usize,
    instr: Instr,
    known: &mut Known,
) -> Result<bool, AllocError>
    ensures fit { IfOk result
        (λ fit. fit ≡ all_fits code.now instr known.old.loops known.old.stack known.old.cost) }
    ensures kinds { IfOk result (λ fit. fit ≡ true →
        kinds_of known.new.stack ≡ slots_after instr (pushes instr) (kinds_of known.old.stack)) }
    ensures bounds { IfOk result (λ fit. fit ≡ true →
        bounds_of known.new.stack ≡ bounds_after code.now instr (bounds_of known.old.stack)) }
    ensures targets { IfOk result (λ fit. fit ≡ true → known.new.targets
        ≡ with_target (target_of (flow instr)) (innermost (nest_of known.old.loops))
        known.old.targets) }
    ensures loops { IfOk result (λ fit. fit ≡ true → known.new.loops
        ≡ loops_after (flow instr) index (takes_part known.old.stack)
        (own_cost code.now instr known.old.stack known.old.cost) known.old.loops) }
    ensures cost { IfOk result (λ fit. fit ≡ true → known.new.cost
        ≡ cost_after (flow instr) known.old.loops
        (own_cost code.now instr known.old.stack known.old.cost)) }
{
    let bound = match pushed_bound(alloc, code, instr, &known.stack)? {
        None => return Ok(false),
        Some(bound) => bound,
    };
    let own = match own_cost(alloc, code, instr, &known.stack, &known.cost)? {
        None => return Ok(false),
        Some(own) => own,
    };
    mark_target(instr, &known.loops, &mut known.targets);
    let is_part = known.stack.takes_part();
    match change_loops(alloc, index, instr.flow(), is_part, own, &mut known.loops)? {
        None => return Ok(false),
        Some(cost) => known.cost = cost,
    }
    apply_effect(instr, bound, &mut known.stack)?;
    Ok(true)
}

// Opens or closes a loop where an instruction does, up to and with which its region costs that much. Returns the cost
// so far of the region of the next instruction; none if a coefficient is too large.
fn change_loops(
    alloc: Global,
    index: usize,
    flow: Flow,
    is_part: bool,
    own: Cost,
    loops: &mut Loops,
) -> Result<Option<Cost>, AllocError>
    requires { cost_fits own ≡ true }
    ensures cost { IfOk result (λ cost. cost ≡ cost_within (cost_after flow loops.old own)) }
    ensures loops { OnOk result (loops.new ≡ loops_after flow index is_part own loops.old) }
{
    match flow {
        Flow::Open(_) => {
            loops.open(OpenLoop {
                opener: index,
                is_part,
                before: own,
            })?;
            Ok(Some(Cost::none(alloc)))
        }
        Flow::Close(_) => match loops.close() {
            None => Ok(Some(own)),
            Some(closed) => closed.cost_round(alloc, &own),
        },
        Flow::Straight | Flow::Jump(_) | Flow::Branch(_) | Flow::End => Ok(Some(own)),
    }
}

// Marks where an instruction jumps to.
fn mark_target(instr: Instr, loops: &Loops, targets: &mut Targets)
    ensures { targets.new
        ≡ with_target (target_of (flow instr)) (innermost (nest_of loops.now)) targets.old }
{
    if let Some(target) = instr.flow().target() {
        targets.add_jump(target, loops.innermost());
    }
}

// The number that an instruction pushes is one of 64 bits.
fn check_type(instr: Instr)
    ensures { IsTyped instr }
{
    if let Instr::Number(number) = instr {
        law_number_has_64_bits(number);
    }
}
