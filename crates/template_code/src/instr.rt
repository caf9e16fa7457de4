//! The instructions.
ghost use Rattle.std.specs.Prelude.{◌≡◌, [], ◌∷◌, MatchOption};
ghost use Rattle.template_code.specs.Instructions.{flow, popped, pushes, loop_named};

use crate::flow::Flow;
use crate::popped::Popped;
use helper_set::helper::Helper;
use helper_set::kind::Kind;
use helper_set::signature::{Parameter, signature};
use std::fmt;

/// One instruction. An operand is the index of an entry in one of the code's tables, the index of an
/// instruction, the number of an open loop, where 0 is the innermost, a value or a helper.
#[derive(Clone, Copy, Debug, PartialEq, Eq)]
pub enum Instr {
    /// Writes that text of the code.
    Emit(usize),
    /// Pushes the value that that path of the code finds in the root.
    Root(usize),
    /// Pushes the value that that path of the code, the second operand, finds in that loop's item.
    Item(usize, usize),
    /// Pushes the index of that loop's item, from 0.
    Index(usize),
    /// Pushes the name of that loop's item, or the empty text if it has none.
    Key(usize),
    /// Pushes whether that loop is at its first item.
    First(usize),
    /// Pushes whether that loop is at its last item.
    Last(usize),
    /// Pushes that text of the code.
    Text(usize),
    /// Pushes that number.
    Number(i64),
    /// Pushes that truth.
    Truth(bool),
    /// Pops a value, a number or a truth and pushes its printed text.
    Show,
    /// Pops a slot and pushes whether it counts as true.
    Test,
    /// Pops the arguments of that helper and pushes its result.
    Call(Helper),
    /// Pops a text and pushes it with the special characters of HTML escaped.
    Escape,
    /// Pops a text and writes it.
    Print,
    /// Goes on at that instruction.
    Jump(usize),
    /// Pops a truth, and goes on at that instruction if it is false.
    Branch(usize),
    /// Pops a value and opens a loop over its items, or goes on at that instruction if it has none.
    Each(usize),
    /// Goes on at that instruction with the innermost loop's next item, or closes the loop if it has none.
    Next(usize),
    /// Ends the run.
    Halt,
}

impl Instr {
    /// Where the run goes on.
    pub fn flow(self) -> Flow
        ensures { result ≡ flow self }
    {
        match self {
            Instr::Jump(target) => Flow::Jump(target),
            Instr::Branch(target) => Flow::Branch(target),
            Instr::Each(target) => Flow::Open(target),
            Instr::Next(start) => Flow::Close(start),
            Instr::Halt => Flow::End,
            _ => Flow::Straight,
        }
    }

    /// The slots that it pops.
    pub fn popped(self) -> Popped
        ensures { result ≡ popped self }
    {
        match self {
            Instr::Show => Popped::One(Parameter::NoText),
            Instr::Test => Popped::One(Parameter::Any),
            Instr::Call(helper) => Popped::arguments(helper),
            Instr::Escape | Instr::Print => Popped::One(Parameter::Of(Kind::Text)),
            Instr::Branch(_) => Popped::One(Parameter::Of(Kind::Truth)),
            Instr::Each(_) => Popped::One(Parameter::Of(Kind::Data)),
            _ => Popped::Nothing,
        }
    }

    /// The kind of the slot that it pushes.
    pub fn pushed(self) -> Option<Kind>
        ensures { MatchOption result (pushes self ≡ []) (λ kind. pushes self ≡ kind ∷ []) }
    {
        match self {
            Instr::Root(_) | Instr::Item(_, _) => Some(Kind::Data),
            Instr::Key(_) | Instr::Text(_) | Instr::Show | Instr::Escape => Some(Kind::Text),
            Instr::Index(_) | Instr::Number(_) => Some(Kind::Number),
            Instr::First(_) | Instr::Last(_) | Instr::Truth(_) | Instr::Test => Some(Kind::Truth),
            Instr::Call(helper) => Some(signature(helper).gives),
            _ => None,
        }
    }

    /// The open loop that it reads or closes, where 0 is the innermost.
    pub fn loop_named(self) -> Option<usize>
        ensures { result ≡ loop_named self }
    {
        match self {
            Instr::Item(depth, _)
            | Instr::Index(depth)
            | Instr::Key(depth)
            | Instr::First(depth)
            | Instr::Last(depth) => Some(depth),
            Instr::Next(_) => Some(0),
            _ => None,
        }
    }
}

impl fmt::Display for Instr {
    ghost use Rattle.std.specs.Prelude.{Some};
    ghost use Rattle.template_code.specs.Listing.{instr_text};

    ghost output = { λ i. Some (instr_text i) };

    fn fmt<W: fmt::Write>(&self, f: &mut fmt::Formatter<W>) -> fmt::Result {
        match self {
            Instr::Emit(text) => write!(f, "Emit {text}"),
            Instr::Root(path) => write!(f, "Root {path}"),
            Instr::Item(depth, path) => write!(f, "Item {depth} {path}"),
            Instr::Index(depth) => write!(f, "Index {depth}"),
            Instr::Key(depth) => write!(f, "Key {depth}"),
            Instr::First(depth) => write!(f, "First {depth}"),
            Instr::Last(depth) => write!(f, "Last {depth}"),
            Instr::Text(text) => write!(f, "Text {text}"),
            Instr::Number(number) => write!(f, "Number {number}"),
            Instr::Truth(true) => write!(f, "Truth true"),
            Instr::Truth(false) => write!(f, "Truth false"),
            Instr::Show => write!(f, "Show"),
            Instr::Test => write!(f, "Test"),
            Instr::Call(helper) => write!(f, "Call {}", helper.name()),
            Instr::Escape => write!(f, "Escape"),
            Instr::Print => write!(f, "Print"),
            Instr::Jump(index) => write!(f, "Jump {index}"),
            Instr::Branch(index) => write!(f, "Branch {index}"),
            Instr::Each(index) => write!(f, "Each {index}"),
            Instr::Next(index) => write!(f, "Next {index}"),
            Instr::Halt => write!(f, "Halt"),
        }
    }
}
