//! From a tree to code: the values that are pushed.
ghost use Rattle.std.specs.Prelude.{◌≡◌, IfOk, OnOk};
ghost use Rattle.template_compile.specs.Compiled.{instructions, nothing_path, datum_code, expression_code, code_for};
ghost use Rattle.data_tree.specs.RootPaths.{body_path};
ghost use Rattle.template_compile.specs.Inner.Drafts.{extended_by};
ghost use Rattle.template_compile.specs.Kinds.{conversion};
ghost use Rattle.template_tags.specs.Expression.{expression_view};

use crate::draft::Draft;
use crate::kinds::{conversion, expression_kind, second_parameter};
use data_tree::step::{Path, Step};
use helper_set::helper::Helper;
use helper_set::kind::Kind;
use helper_set::signature::{Parameter, signature};
use std::alloc::{AllocError, Global};
use template_code::instr::Instr;
use template_tags::expression::{Datum, Expression};

/// The expression's value is pushed as a parameter wants it.
pub fn add_value(
    draft: &mut Draft,
    alloc: Global,
    parameter: Parameter,
    expression: Expression,
) -> Result<(), AllocError>
    ensures { OnOk result (draft.new ≡ extended_by draft.old (code_for parameter (expression_view expression))) }
{
    let kind = expression_kind(&expression);
    add_expression(draft, alloc, expression)?;
    convert(draft, parameter, kind)
}

#[tactic(auto, using(template_tree::proofs::Views::view_call, template_tree::proofs::Views::view_call_two))]
fn add_expression(
    draft: &mut Draft,
    alloc: Global,
    expression: Expression,
) -> Result<(), AllocError>
    ensures { OnOk result (draft.new ≡ extended_by draft.old (expression_code (expression_view expression))) }
{
    match expression {
        Expression::Datum(datum) => add_datum(draft, alloc, datum),
        Expression::Index => draft.push(Instr::Index(0)),
        Expression::Key => draft.push(Instr::Key(0)),
        Expression::First => draft.push(Instr::First(0)),
        Expression::Last => draft.push(Instr::Last(0)),
        Expression::Text(text) => draft.text(text),
        Expression::Number(number) => draft.push(Instr::Number(number)),
        Expression::Truth(truth) => draft.push(Instr::Truth(truth)),
        Expression::Call(helper, argument) => {
            let argument = Box::into_inner(argument);
            let kind = expression_kind(&argument);
            add_expression(draft, alloc, argument)?;
            convert(draft, signature(helper).first, kind)?;
            draft.push(Instr::Call(helper))
        }
        Expression::CallTwo(helper, first, second) => {
            let first = Box::into_inner(first);
            let second = Box::into_inner(second);
            let first_kind = expression_kind(&first);
            let second_kind = expression_kind(&second);
            add_expression(draft, alloc, first)?;
            convert(draft, signature(helper).first, first_kind)?;
            add_expression(draft, alloc, second)?;
            convert(draft, second_parameter(helper), second_kind)?;
            draft.push(Instr::Call(helper))
        }
    }
}

// A value of that kind becomes what the parameter wants.
fn convert(draft: &mut Draft, parameter: Parameter, kind: Kind) -> Result<(), AllocError>
    ensures { OnOk result (draft.new ≡ extended_by draft.old (instructions (conversion parameter kind))) }
{
    match conversion(parameter, kind) {
        Some(instr) => draft.push(instr),
        None => Ok(()),
    }
}

/// The datum is pushed.
pub fn add_datum(draft: &mut Draft, alloc: Global, datum: Datum) -> Result<(), AllocError>
    ensures { OnOk result (draft.new ≡ extended_by draft.old (datum_code datum)) }
{
    match datum {
        Datum::Nothing => draft.root(nothing_path(alloc)?),
        Datum::Root(path) => draft.root(path),
        Datum::Item { up, steps } => draft.item(up, steps),
        Datum::BodyPath(text) => {
            draft.root(body_path(alloc)?)?;
            draft.path_text(alloc, text)?;
            draft.push(Instr::Call(Helper::JsonPath))
        }
    }
}

// The path that finds nothing in the data of a request: that of the empty name.
fn nothing_path(alloc: Global) -> Result<Path, AllocError>
    ensures { IfOk result (λ path. path ≡ nothing_path) }
{
    Ok(Path::new(vec![in alloc; Step::named(alloc, "")?]?))
}

// `request.body`, the first argument of `jsonPath`.
fn body_path(alloc: Global) -> Result<Path, AllocError>
    ensures { IfOk result (λ path. path ≡ body_path) }
{
    let request = Step::named(alloc, "request")?;
    let body = Step::named(alloc, "body")?;
    Ok(Path::new(vec![in alloc; request, body]?))
}
