// What a literal URL is known by, so that most requests for another one are told without a look at its matcher.
/// The hash of the literal URL that a matcher asks for.
#[derive(Clone, Copy, Debug, PartialEq, Eq)]
pub enum UrlKey {
    /// It asks for none.
    Any,
    /// Of the path and the query.
    Url(u64),
    /// Of the path.
    UrlPath(u64),
}
