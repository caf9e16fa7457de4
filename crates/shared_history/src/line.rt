// What the log keeps of an entry, and what a step asks for.
use crate::entry::{Deed, Entry};
use logbook::Pen;

/// An entry, the turn that it uses up, the turn that its seat has next, and that of the seat that it makes.
pub struct Line<O, E> {
    pub entry: Entry<O, E>,
    pub turn: u64,
    pub next: u64,
    pub child: u64,
}

/// A deed that a step asks for, by what lies there when it runs.
#[derive(Drop)]
pub(crate) enum Ask<'a, O, E> {
    Opened(&'a O),
    Called(&'a E),
    Silent(Silent),
}

/// A deed without a value.
#[derive(Clone, Copy)]
pub(crate) enum Silent {
    Looked,
    Split,
    Left,
}

/// A line that a step asks for.
#[derive(Drop)]
pub(crate) struct Draft<'a, O, E> {
    pub(crate) seat: u64,
    pub(crate) ask: Ask<'a, O, E>,
    pub(crate) turn: &'a Pen,
    pub(crate) next: &'a Pen,
    pub(crate) child: &'a Pen,
}
