// What there is in place of what a condition asks for: for people, so that no contract speaks of it.

/// What a request, or the state of a scenario, has in place of what a condition asks for.
pub enum Found {
    /// No value.
    None,
    /// The value, or each value of the name.
    Values(Vec<String>),
    /// The body isn't JSON, and why.
    NotJson(String),
    /// The JSON path finds nothing in the body.
    NoSuchPath,
    /// A body of so many bytes.
    Bytes(usize),
}

// Written out, so that a caller's proof sees one call and not the drop of each part.
impl Drop for Found {
    fn drop(self) {
        match self {
            Found::None => {}
            Found::Values(_values) => {}
            Found::NotJson(_reason) => {}
            Found::NoSuchPath => {}
            Found::Bytes(_count) => {}
        }
    }
}
