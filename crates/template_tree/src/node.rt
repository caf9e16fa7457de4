// The parts of a template.

use crate::escape::Escape;
use plain_text::text::Text;
use template_tags::expression::{Datum, Expression};

/// A part of a template, in order with the others. An `if`, an `unless` or an `each` has the nodes of its parts.
#[derive(Debug, Drop)]
pub enum Node {
    /// Text, which is written as it is.
    Piece(Text),
    /// The printed text of a value, escaped so.
    Print(Escape, Expression),
    /// An `if`, or an `unless`.
    If {
        unless: bool,
        test: Expression,
        then: Vec<Node>,
    },
    /// The same with an else part.
    IfElse {
        unless: bool,
        test: Expression,
        then: Vec<Node>,
        otherwise: Vec<Node>,
    },
    /// An `each`.
    Each {
        over: Datum,
        body: Vec<Node>,
    },
    /// The same with an else part, which is written where there is no item.
    EachElse {
        over: Datum,
        body: Vec<Node>,
        otherwise: Vec<Node>,
    },
}
