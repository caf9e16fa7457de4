/// An entry of a history. No program makes one.
pub struct Entry<O, E> {
    pub seat: u64,
    pub deed: Deed<O, E>,
}

/// What a seat did.
pub enum Deed<O, E> {
    /// It opened the history, with this origin.
    Opened(O),
    /// It called the shared thing, with this event.
    Called(E),
    /// It looked at all that there was.
    Looked,
    /// It made a seat.
    Split,
    /// It left: it makes no entry any more.
    Left,
}
