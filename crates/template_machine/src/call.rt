//! The result of a helper, from the slots that it takes.
ghost use Rattle.std.specs.Prelude.{◌≡◌, true, false, [], ◌∷◌, Some, IfOk, IfSome};
ghost use Rattle.data_tree.specs.LookUp.{at};
ghost use Rattle.data_tree.specs.Tree.{Tree, view};
ghost use Rattle.data_tree.specs.WellFormed.{IsWellFormed};
ghost use Rattle.helper_set.specs.Values.{kind_of, a_datum, text_of};
ghost use Rattle.helper_set.specs.Helpers.{argument_kinds, fit, applied, is_looked_up};
ghost use Rattle.helper_set.specs.declared.helper.Helper.TheVariants.{DefaultIfEmpty};
ghost use Rattle.helper_set.specs.Views.{value_view, made_view};
ghost use Rattle.helper_set.specs.declared.kind.Kind.{Kind};
ghost use Rattle.json_bridge.specs.Path.{SpellsPath};
ghost use Rattle.template_code.specs.Machine.{result_of, found_by};
ghost use Rattle.data_tree.specs.RootPaths.{json_path};
ghost use Rattle.template_machine.specs.Inner.Changes.{changes_text};
ghost use Rattle.template_machine.specs.Inner.Slots.{slot_view, found_view, held_view};

use crate::held::{Held, hold};
use crate::slot::{Slot, Text, changes_text};
use crate::value::Value;
use data_tree::data::Data;
use data_tree::step::Step;
use helper_set::apply::apply;
use helper_set::helper::Helper;
use helper_set::value::{MadeValue, Value as Argument};
use json_bridge::error::JsonPathError;
use json_bridge::json_path::JsonPath;
use std::alloc::{AllocError, Global};
use std::borrow::CowStr;

/// The result of a helper that takes one argument, over any root.
pub fn result_of_one<'a>(
    alloc: Global,
    helper: Helper,
    argument: Slot<'a>,
) -> Result<Slot<'a>, AllocError>
    requires { fit (argument_kinds helper) (kind_of (slot_view argument) ∷ []) ≡ true }
    ensures { IfOk result
        (λ made. (root : Tree) → result_of root helper (slot_view argument.entry ∷ []) ≡ Some (slot_view made)) }
{
    if changes_text(helper) {
        return changed(alloc, helper, argument);
    }
    let held = hold(alloc, &argument)?;
    let made = apply_to_one(alloc, helper, held.argument())?;
    slot_of(alloc, made)
}

// The result of a helper that changes a text alone.
#[tactic(auto, using(crate::proofs::Calls::changed_result))]
fn changed<'a>(alloc: Global, helper: Helper, argument: Slot<'a>) -> Result<Slot<'a>, AllocError>
    requires changes { changes_text helper ≡ true }
    requires fitting { fit (argument_kinds helper) (kind_of (slot_view argument) ∷ []) ≡ true }
    ensures { IfOk result
        (λ made. (root : Tree) → result_of root helper (slot_view argument.entry ∷ []) ≡ Some (slot_view made)) }
{
    match argument {
        Slot::Text(text) => Ok(Slot::Text(text.changed(alloc, helper)?)),
        Slot::Value(_) => unreachable!(),
    }
}

/// The result of a helper that takes two arguments.
pub fn result_of_two<'a>(
    alloc: Global,
    root: &'a Data,
    helper: Helper,
    first: Slot<'a>,
    second: Slot<'a>,
) -> Result<Slot<'a>, AllocError>
    requires well_formed { IsWellFormed (view root.now) }
    requires arguments { fit (argument_kinds helper) (kind_of (slot_view first) ∷ kind_of (slot_view second) ∷ [])
        ≡ true }
    ensures { IfOk result
        (λ made. result_of (view root.now) helper (slot_view first.entry ∷ slot_view second.entry ∷ [])
        ≡ Some (slot_view made)) }
{
    if let Helper::JsonPath = helper {
        return looked_up(alloc, root, second);
    }
    if let Helper::DefaultIfEmpty = helper {
        return Ok(or_default(first, second));
    }
    let first = hold(alloc, &first)?;
    let second = hold(alloc, &second)?;
    let made = apply_to_two(alloc, helper, first.argument(), second.argument())?;
    slot_of(alloc, made)
}

// The first text, or the second where the first is empty. Each stays as it is.
#[tactic(auto, using(crate::proofs::Calls::default_applied))]
fn or_default<'a>(first: Slot<'a>, second: Slot<'a>) -> Slot<'a>
    requires { fit (argument_kinds DefaultIfEmpty) (kind_of (slot_view first) ∷ kind_of (slot_view second) ∷ [])
        ≡ true }
    ensures { applied DefaultIfEmpty (slot_view first.entry ∷ slot_view second.entry ∷ [])
        ≡ Some (slot_view result) }
{
    if first.is_true() { first } else { second }
}

fn apply_to_one<'a>(
    alloc: Global,
    helper: Helper,
    argument: Argument<'a>,
) -> Result<MadeValue<'a>, AllocError>
    requires { fit (argument_kinds helper) (kind_of (value_view argument) ∷ []) ≡ true }
    ensures { IfOk result (λ made. (root : Tree) →
        result_of root helper (value_view argument.entry ∷ []) ≡ Some (made_view made)) }
{
    let arguments = [argument];
    apply(alloc, helper, &arguments)
}

fn apply_to_two<'a>(
    alloc: Global,
    helper: Helper,
    first: Argument<'a>,
    second: Argument<'a>,
) -> Result<MadeValue<'a>, AllocError>
    requires applied { is_looked_up helper ≡ false }
    requires fitting { fit (argument_kinds helper) (kind_of (value_view first) ∷ kind_of (value_view second) ∷ [])
        ≡ true }
    ensures { IfOk result (λ made. (root : Tree) →
        result_of root helper (value_view first.entry ∷ value_view second.entry ∷ []) ≡ Some (made_view made)) }
{
    let arguments = [first, second];
    apply(alloc, helper, &arguments)
}

// What the path that an argument spells finds in the body's data. A text of the code that is a path was read as one
// when the code was made.
fn looked_up<'a>(alloc: Global, root: &'a Data, path: Slot<'a>) -> Result<Slot<'a>, AllocError>
    requires well_formed { IsWellFormed (view root.now) }
    requires text { kind_of (slot_view path) ≡ Kind.Text }
    ensures { IfOk result (λ found.
        slot_view found ≡ a_datum (found_by (view root.now) (text_of (slot_view path.entry)))) }
{
    if let Slot::Text(Text::Literal(text)) = path {
        if let Some(path) = text.json_path() {
            let found = found_at(alloc, root, text.as_str(), path)?;
            return Ok(Slot::Value(Value::Datum(found)));
        }
    }
    match hold(alloc, &path)? {
        Held::Text(text) => {
            let found = found_by(alloc, root, text.as_str())?;
            Ok(Slot::Value(Value::Datum(found)))
        }
        Held::Value(_) => unreachable!(),
    }
}

// None is Nothing, also where the text spells no path.
fn found_by<'a>(alloc: Global, root: &'a Data, text: &str) -> Result<Option<&'a Data>, AllocError>
    requires { IsWellFormed (view root.now) }
    ensures { IfOk result (λ found. found_view found ≡ found_by (view root.now) text.now) }
{
    match JsonPath::parse(alloc, text) {
        Ok(path) => found_at(alloc, root, text, &path),
        Err(JsonPathError::BadPath) => Ok(None),
        Err(JsonPathError::OutOfMemory) => Err(AllocError),
    }
}

// What the path that the text spells finds.
fn found_at<'a>(
    alloc: Global,
    root: &'a Data,
    _text: &str,
    path: &JsonPath,
) -> Result<Option<&'a Data>, AllocError>
    requires well_formed { IsWellFormed (view root.now) }
    requires spelled { SpellsPath _text.now path.now }
    ensures { IfOk result (λ found. found_view found ≡ found_by (view root.now) _text.now) }
{
    let json = json_of(alloc, root)?;
    Ok(found_in(json, path.steps()))
}

// The body's data.
fn json_of<'a>(alloc: Global, root: &'a Data) -> Result<Option<&'a Data>, AllocError>
    requires { IsWellFormed (view root.now) }
    ensures found { IfOk result (λ json. found_view json ≡ at json_path (view root.now)) }
    ensures well_formed { IfOk result (λ json. IfSome json (λ d. IsWellFormed (view d.now))) }
{
    let steps = [Step::named(alloc, "json")?];
    Ok(root.at(&steps))
}

/// What steps find in a value, which no steps find itself; None is Nothing.
#[tactic(auto, using(data_tree::proofs::Lookups::at_nothing))]
pub fn found_in<'a>(value: Option<&'a Data>, steps: &[Step]) -> Option<&'a Data>
    requires { IfSome value (λ d. IsWellFormed (view d.now)) }
    ensures { found_view result ≡ at steps.now (found_view value.entry) }
{
    match value {
        Some(value) if steps.is_empty() => Some(value),
        Some(value) => value.at(steps),
        None => None,
    }
}

// The slot that owns a result. A text that is a part of an argument is copied, since the argument's slot is gone.
fn slot_of<'a>(alloc: Global, made: MadeValue<'_>) -> Result<Slot<'a>, AllocError>
    ensures { IfOk result (λ slot. slot_view slot ≡ made_view made.entry) }
{
    match made {
        MadeValue::Text(CowStr::Owned(text)) => Ok(Slot::Text(Text::Made(text))),
        MadeValue::Text(CowStr::Borrowed(text)) => {
            Ok(Slot::Text(Text::Made(String::from_str(alloc, text)?)))
        }
        MadeValue::Number(number) => Ok(Slot::Value(Value::Number(number))),
        MadeValue::Truth(truth) => Ok(Slot::Value(Value::Truth(truth))),
    }
}
