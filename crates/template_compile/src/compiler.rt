//! From a tree to code: nodes.
ghost use Rattle.std.specs.Prelude.{◌≡◌, ◌<◌, ◌≤◌, ◌↔◌, length, IfOk, OnOk, IsErrOf};
ghost use Rattle.code_rules.specs.Verdict.{IsWellFormed, IsWithinLimits};
ghost use Rattle.template_code.specs.declared.limits.TheConstants.{MAX_INSTRUCTIONS};
ghost use Rattle.template_compile.specs.Compiled.{instructions, print_instrs, test_code, node_code, nodes_code};
ghost use Rattle.template_compile.specs.Compiled.{stack_code};
ghost use Rattle.template_compile.specs.Correct.{WritesTextOf};
ghost use Rattle.template_compile.specs.Inner.Drafts.{extended_by};
ghost use Rattle.template_compile.specs.Inner.Length.{node_length, nodes_length};
ghost use Rattle.template_tags.specs.Expression.{expression_view};
ghost use Rattle.template_tree.specs.Template.{tree_of};
ghost use Rattle.template_tree.specs.Tree.{node_view, nodes_view};

use crate::draft::Draft;
use crate::error::CompileError;
use crate::expressions::{add_datum, add_value};
use crate::length::{is_too_long, nodes_length};
use helper_set::helper::Helper;
use helper_set::kind::Kind;
use helper_set::signature::Parameter;
use std::alloc::{AllocError, Global};
use template_code::code::Code;
use template_code::instr::Instr;
use template_tags::expression::Expression;
use template_tree::escape::Escape;
use template_tree::node::Node;
use template_tree::template::Template;

/// The code of a template, whose texts and paths become the tables of the code. It is refused where it would have
/// more than `MAX_INSTRUCTIONS` instructions, before any memory is taken.
#[tactic(auto, using(crate::proofs::Lengths::counted))]
pub fn compile(alloc: Global, template: Template) -> Result<Code, CompileError>
    ensures translated { IfOk result (λ code. code ≡ stack_code (tree_of template)) }
    ensures runs { IfOk result (λ code. WritesTextOf code (tree_of template)) }
    ensures well_formed { IfOk result IsWellFormed }
    ensures within_limits { IfOk result IsWithinLimits }
    // Also where there is no memory.
    ensures too_long { IsErrOf result CompileError.TooLong
        ↔ MAX_INSTRUCTIONS < length (stack_code (tree_of template)).instrs }
{
    let nodes = template.into_nodes();
    if is_too_long(&nodes) {
        return Err(CompileError::TooLong);
    }
    Ok(translate(alloc, nodes)?)
}

fn translate(alloc: Global, nodes: Vec<Node>) -> Result<Code, AllocError>
    requires { nodes_length (nodes_view nodes.items) ≤ MAX_INSTRUCTIONS }
    ensures { IfOk result (λ code. code ≡ stack_code (nodes_view nodes.items)) }
{
    let mut draft = Draft::new(alloc);
    add_nodes(&mut draft, alloc, nodes)?;
    draft.push(Instr::Halt)?;
    Ok(draft.into_code())
}

#[cycle(add_nodes)]
fn add_nodes(draft: &mut Draft, alloc: Global, nodes: Vec<Node>) -> Result<(), AllocError>
    requires { nodes_length (nodes_view nodes.items) ≤ MAX_INSTRUCTIONS }
    ensures { OnOk result (draft.new ≡ extended_by draft.old (nodes_code (nodes_view nodes.items))) }
{
    for node in nodes {
        add_node(draft, alloc, node)?;
    }
    Ok(())
}

#[cycle(add_nodes)]
#[tactic(auto, using(template_tree::proofs::Views::view_if, template_tree::proofs::Views::view_if_else, template_tree::proofs::Views::view_each, template_tree::proofs::Views::view_each_else, crate::proofs::Lengths::sized))]
fn add_node(draft: &mut Draft, alloc: Global, node: Node) -> Result<(), AllocError>
    requires { node_length (node_view node) ≤ MAX_INSTRUCTIONS }
    ensures { OnOk result (draft.new ≡ extended_by draft.old (node_code (node_view node))) }
{
    match node {
        Node::Piece(text) => draft.emit(text),
        Node::Print(escape, expression) => {
            add_value(draft, alloc, Parameter::Of(Kind::Text), expression)?;
            add_print(draft, escape)
        }
        Node::If { unless, test, then } => {
            add_test(draft, alloc, unless, test)?;
            draft.branch_over(nodes_length(&then))?;
            add_nodes(draft, alloc, then)
        }
        Node::IfElse {
            unless,
            test,
            then,
            otherwise,
        } => {
            add_test(draft, alloc, unless, test)?;
            draft.branch_over(nodes_length(&then) + 1)?;
            add_nodes(draft, alloc, then)?;
            draft.jump_over(nodes_length(&otherwise))?;
            add_nodes(draft, alloc, otherwise)
        }
        Node::Each { over, body } => {
            let size = nodes_length(&body);
            add_datum(draft, alloc, over)?;
            draft.each_over(size + 1)?;
            add_nodes(draft, alloc, body)?;
            draft.again(size)
        }
        Node::EachElse {
            over,
            body,
            otherwise,
        } => {
            let size = nodes_length(&body);
            add_datum(draft, alloc, over)?;
            draft.each_over(size + 2)?;
            add_nodes(draft, alloc, body)?;
            draft.again(size)?;
            draft.jump_over(nodes_length(&otherwise))?;
            add_nodes(draft, alloc, otherwise)
        }
    }
}

// The text on the stack is written, escaped first or not.
fn add_print(draft: &mut Draft, escape: Escape) -> Result<(), AllocError>
    ensures { OnOk result (draft.new ≡ extended_by draft.old (instructions (print_instrs escape))) }
{
    match escape {
        Escape::Off => draft.push(Instr::Print),
        Escape::Html => {
            draft.push(Instr::Escape)?;
            draft.push(Instr::Print)
        }
    }
}

// Whether the part after an `if` is to be written, or that after an `unless`.
fn add_test(
    draft: &mut Draft,
    alloc: Global,
    unless: bool,
    test: Expression,
) -> Result<(), AllocError>
    ensures { OnOk result (draft.new ≡ extended_by draft.old (test_code unless (expression_view test))) }
{
    add_value(draft, alloc, Parameter::Of(Kind::Truth), test)?;
    if unless {
        draft.push(Instr::Call(Helper::Not))?;
    }
    Ok(())
}
