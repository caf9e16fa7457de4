// The place of a key among the keys of a list.

/// The place of a key among those of a list that are equal to it: its group.
#[derive(Clone, Copy, Debug, PartialEq, Eq)]
pub struct Place {
    /// Which of its group it is, from 1.
    pub position: usize,
    /// How many its group has.
    pub size: usize,
    /// Which of the groups that have two or more its group is, from 1 and in the order of their first keys. None for a
    /// group of one.
    pub group: Option<usize>,
}
