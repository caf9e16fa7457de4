//! How many instructions code has, told without making it. The functions take the code of a part out of the room that
//! is left for instructions, so that no sum of lengths is too large.
ghost use Rattle.std.specs.Prelude.{◌≡◌, ◌<◌, ◌≤◌, ◌↔◌, length, IsTrue};
ghost use Rattle.template_code.specs.declared.limits.TheConstants.{MAX_INSTRUCTIONS};
ghost use Rattle.template_compile.specs.Compiled.{size, nodes_code, stack_code};
ghost use Rattle.template_compile.specs.Inner.Room.{TakesRoom};
ghost use Rattle.template_compile.specs.Kinds.{conversion};
ghost use Rattle.template_compile.specs.Inner.Length.{datum_length, expression_length, length_for, print_length};
ghost use Rattle.template_compile.specs.Inner.Length.{test_length, node_length, nodes_length};
ghost use Rattle.template_tags.specs.Expression.{expression_view};
ghost use Rattle.template_tree.specs.Tree.{node_view, nodes_view};

use crate::kinds::{conversion, expression_kind, second_parameter};
use helper_set::kind::Kind;
use helper_set::signature::{Parameter, signature};
use template_code::limits::MAX_INSTRUCTIONS;
use template_tags::expression::{Datum, Expression};
use template_tree::escape::Escape;
use template_tree::node::Node;

/// Whether the code of these nodes, with its `Halt`, has more than `MAX_INSTRUCTIONS` instructions.
#[tactic(auto, using(crate::proofs::Lengths::counted))]
pub fn is_too_long(nodes: &Vec<Node>) -> bool
    ensures { IsTrue result ↔ MAX_INSTRUCTIONS < length (stack_code (nodes_view nodes.now.items)).instrs }
{
    after_nodes(MAX_INSTRUCTIONS - 1, nodes).is_none()
}

/// How many instructions the code of these nodes has.
#[tactic(auto, using(crate::proofs::Lengths::sized))]
pub fn nodes_length(nodes: &Vec<Node>) -> usize
    requires { nodes_length (nodes_view nodes.now.items) ≤ MAX_INSTRUCTIONS }
    ensures { result ≡ size (nodes_code (nodes_view nodes.now.items)) }
{
    match after_nodes(MAX_INSTRUCTIONS, nodes) {
        Some(rest) => MAX_INSTRUCTIONS - rest,
        None => unreachable!(),
    }
}

#[cycle(after_nodes)]
fn after_nodes(room: usize, nodes: &Vec<Node>) -> Option<usize>
    ensures { TakesRoom room (nodes_length (nodes_view nodes.now.items)) result }
{
    let mut rest = room;
    for node in nodes {
        match after_node(rest, node) {
            Some(less) => rest = less,
            None => return None,
        }
    }
    Some(rest)
}

#[cycle(after_nodes)]
#[tactic(auto, using(template_tree::proofs::Views::view_if, template_tree::proofs::Views::view_if_else, template_tree::proofs::Views::view_each, template_tree::proofs::Views::view_each_else))]
fn after_node(room: usize, node: &Node) -> Option<usize>
    ensures { TakesRoom room (node_length (node_view node.now)) result }
{
    match node {
        Node::Piece(_) => less(room, 1),
        Node::Print(escape, expression) => {
            let rest = after_argument(room, Parameter::Of(Kind::Text), expression)?;
            less(rest, print_length(*escape))
        }
        Node::If { unless, test, then } => {
            let rest = after_test(room, *unless, test)?;
            after_nodes(less(rest, 1)?, then)
        }
        Node::IfElse {
            unless,
            test,
            then,
            otherwise,
        } => {
            let rest = after_test(room, *unless, test)?;
            let rest = after_nodes(less(rest, 1)?, then)?;
            after_nodes(less(rest, 1)?, otherwise)
        }
        Node::Each { over, body } => {
            let rest = less(room, datum_length(over) + 1)?;
            less(after_nodes(rest, body)?, 1)
        }
        Node::EachElse {
            over,
            body,
            otherwise,
        } => {
            let rest = less(room, datum_length(over) + 1)?;
            let rest = less(after_nodes(rest, body)?, 2)?;
            after_nodes(rest, otherwise)
        }
    }
}

fn less(room: usize, taken: usize) -> Option<usize>
    ensures { TakesRoom room taken result }
{
    if room < taken {
        None
    } else {
        Some(room - taken)
    }
}

fn print_length(escape: Escape) -> usize
    ensures { result ≡ print_length escape }
{
    match escape {
        Escape::Off => 1,
        Escape::Html => 2,
    }
}

fn after_test(room: usize, unless: bool, test: &Expression) -> Option<usize>
    ensures { TakesRoom room (test_length unless (expression_view test.now)) result }
{
    let rest = after_argument(room, Parameter::Of(Kind::Truth), test)?;
    if unless { less(rest, 1) } else { Some(rest) }
}

fn after_argument(room: usize, parameter: Parameter, expression: &Expression) -> Option<usize>
    ensures { TakesRoom room (length_for parameter (expression_view expression.now)) result }
{
    let rest = after_expression(room, expression)?;
    less(
        rest,
        conversion_length(parameter, expression_kind(expression)),
    )
}

#[tactic(auto, using(template_tree::proofs::Views::view_call, template_tree::proofs::Views::view_call_two))]
fn after_expression(room: usize, expression: &Expression) -> Option<usize>
    ensures { TakesRoom room (expression_length (expression_view expression.now)) result }
{
    match expression {
        Expression::Datum(datum) => less(room, datum_length(datum)),
        Expression::Call(helper, argument) => {
            let rest = after_expression(room, argument)?;
            let made = conversion_length(signature(*helper).first, expression_kind(argument));
            less(rest, made + 1)
        }
        Expression::CallTwo(helper, first, second) => {
            let rest = after_expression(room, first)?;
            let made = conversion_length(signature(*helper).first, expression_kind(first));
            let rest = after_expression(less(rest, made)?, second)?;
            let made = conversion_length(second_parameter(*helper), expression_kind(second));
            less(rest, made + 1)
        }
        Expression::Index
        | Expression::Key
        | Expression::First
        | Expression::Last
        | Expression::Text(_)
        | Expression::Number(_)
        | Expression::Truth(_) => less(room, 1),
    }
}

fn datum_length(datum: &Datum) -> usize
    ensures { result ≡ datum_length datum.now }
{
    match datum {
        Datum::Nothing | Datum::Root(_) | Datum::Item { .. } => 1,
        Datum::BodyPath(_) => 3,
    }
}

fn conversion_length(parameter: Parameter, kind: Kind) -> usize
    ensures { result ≡ length (conversion parameter kind) }
{
    match conversion(parameter, kind) {
        Some(_) => 1,
        None => 0,
    }
}
