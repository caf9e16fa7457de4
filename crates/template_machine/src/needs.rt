//! The data that code looks at.
ghost use Rattle.std.specs.Prelude.{IfOk, IfSome, IsTrue, ℕ};
ghost use Rattle.needed_data.specs.Needed.{Includes};
ghost use Rattle.helper_set.specs.declared.helper.Helper.TheVariants.{JsonPath};
ghost use Rattle.template_code.specs.Finds.{IsPushedBefore, IsUnread};
ghost use Rattle.template_code.specs.declared.instr.Instr.TheVariants.{Call, Root};
ghost use Rattle.template_machine.specs.Inner.Needs.{CoversInstr, CoversJump, CoversCode};

use helper_set::helper::Helper;
use needed_data::needed::{KeptNeeded, Needed};
use std::alloc::{AllocError, Global};
use template_code::code::Code;
use template_code::code_text::CodeText;
use template_code::instr::Instr;

/// What the code's paths find, and what helpers look up in the body's data.
pub(crate) fn needed_by(alloc: Global, code: &Code) -> Result<KeptNeeded, AllocError>
    ensures { IfOk result (λ needed. CoversCode needed code.now) }
{
    let mut needed = Needed::new();
    add_code(code, &mut needed);
    needed.to_kept(alloc)
}

fn add_code<'a>(code: &'a Code, needed: &mut Needed<'a>)
    ensures more { Includes needed.new needed.old }
    ensures code { CoversCode needed.new code.now }
{
    for (index, instr) in code.instrs().iter().enumerate() {
        add_instr(code, index, *instr, needed);
    }
}

fn add_instr<'a>(code: &'a Code, index: usize, instr: Instr, needed: &mut Needed<'a>)
    ensures more { Includes needed.new needed.old }
    ensures instr { CoversInstr needed.new code.now index instr }
{
    match instr {
        Instr::Root(path) => add_root(code, index, path, needed),
        Instr::Call(Helper::JsonPath) => add_looked_up(code, index, needed),
        Instr::Jump(target) => add_jump(code, target, needed),
        Instr::Branch(target) => add_jump(code, target, needed),
        Instr::Each(target) => add_jump(code, target, needed),
        Instr::Next(start) => add_jump(code, start, needed),
        _ => {}
    }
}

// What the path finds, unless nobody reads it.
fn add_root<'a>(code: &'a Code, index: usize, path: usize, needed: &mut Needed<'a>)
    ensures more { Includes needed.new needed.old }
    ensures root { CoversInstr needed.new code.now index (Root path) }
{
    if is_unread(code, index) {
        return;
    }
    if let Some(path) = code.paths().get(path) {
        needed.add_steps(path.steps());
    }
}

// Whether a text comes on top of what the instruction at that index pushes, and then `jsonPath`, which reads the text alone.
fn is_unread(code: &Code, index: usize) -> bool
    ensures { IsTrue result → (path : ℕ) → IsUnread code.now index (Root path) }
{
    let (Some(next), Some(taken)) = (index.checked_add(1), index.checked_add(2)) else {
        return false;
    };
    match (code.instrs().get(next), code.instrs().get(taken)) {
        (Some(Instr::Text(_)), Some(Instr::Call(Helper::JsonPath))) => true,
        _ => false,
    }
}

// The part of the body's data that a literal path finds. Another text may be any path.
fn add_looked_up<'a>(code: &'a Code, index: usize, needed: &mut Needed<'a>)
    ensures more { Includes needed.new needed.old }
    ensures call { CoversInstr needed.new code.now index (Call JsonPath) }
{
    if let Some(text) = text_before(code, index) {
        if let Some(path) = text.json_path() {
            needed.add_json_steps(path.steps());
            return;
        }
    }
    needed.add_json();
}

// The text that the instruction before that index pushes.
fn text_before(code: &Code, index: usize) -> Option<&CodeText>
    ensures { IfSome result (λ text. IsPushedBefore code.now index text.now) }
{
    let before = index.checked_sub(1)?;
    match code.instrs().get(before) {
        Some(Instr::Text(entry)) => code.texts().get(*entry),
        _ => None,
    }
}

// Where a jump leads to the call, its path may be another text than the one before it.
fn add_jump<'a>(code: &'a Code, target: usize, needed: &mut Needed<'a>)
    ensures more { Includes needed.new needed.old }
    ensures jump { CoversJump needed.new code.now target }
{
    if let Some(Instr::Call(Helper::JsonPath)) = code.instrs().get(target) {
        needed.add_json();
    }
}
