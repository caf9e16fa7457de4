// What a tag names: values of the request's data, literals, and what helpers make of them.

use data_tree::step::Path;
use helper_set::helper::Helper;
use plain_text::text::Text;

/// The most calls in parentheses that may nest.
pub const CALL_LIMIT: usize = 8;

/// A value of the request's data.
#[derive(Debug, Drop)]
pub enum Datum {
    /// Finds nothing, as what leads out of all loops.
    Nothing,
    /// From the request's root.
    Root(Path),
    /// From the item of the `up`-th enclosing loop, 0 being the innermost.
    Item { up: u32, steps: Path },
    /// What a JSON path, spelled by this text, finds in the body.
    BodyPath(Text),
}

/// A value that a tag names. Contracts see `expression_view` of it.
#[derive(Debug, Drop)]
pub enum Expression {
    Datum(Datum),
    /// The index of the innermost loop's item.
    Index,
    /// The name of the innermost loop's item.
    Key,
    /// Whether the innermost loop's item is its first.
    First,
    /// Whether the innermost loop's item is its last.
    Last,
    Text(Text),
    Number(i64),
    Truth(bool),
    /// What a helper makes of one value.
    Call(Helper, Box<Expression>),
    /// What a helper makes of two values.
    CallTwo(Helper, Box<Expression>, Box<Expression>),
}
