// Where a path is read.

use data_tree::step::Path;

/// A path, and the value that its steps lead from.
#[derive(Debug, Drop)]
pub enum Reference {
    /// From the request's root.
    Root(Path),
    /// From the item of the `depth`-th enclosing loop, 0 being the innermost. It finds nothing where fewer
    /// loops are open.
    Item { depth: u32, steps: Path },
}
