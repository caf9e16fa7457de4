// What is kept of the scenarios, and the search among it.
ghost use Rattle.std.specs.Prelude.{IfOk, IfErr};
ghost use Rattle.scenario_core.specs.Inner.Entries.{pairs_of, AreInOrder, IsAt, IsGapFor};

/// A scenario that isn't in the state in which it began.
#[derive(Clone, Debug, Drop)]
pub(crate) struct Entry {
    pub(crate) name: String,
    pub(crate) state: String,
}

/// The index of the entry with this name, or the index where it would go.
pub(crate) fn search(entries: &[Entry], name: &str) -> Result<usize, usize>
    requires { AreInOrder (pairs_of entries.now) }
    ensures found { IfOk result (IsAt (pairs_of entries.now) name.now) }
    ensures absent { IfErr result (IsGapFor (pairs_of entries.now) name.now) }
{
    entries.binary_search_by(|entry| entry.name.as_str().cmp(&name))
}
