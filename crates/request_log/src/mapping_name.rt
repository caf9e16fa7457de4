// A mapping as it is named in a line.
use mapping_diagnosis::shown::quoted;
use request_journal::mapping::Mapping;
use std::alloc::{AllocError, Global};

/// Its id, and its name, if it has one.
pub(crate) fn push_mapping(
    alloc: Global,
    line: &mut String,
    mapping: &Mapping,
) -> Result<(), AllocError> {
    line.push_str(mapping.id.hyphenated(alloc)?.as_str())?;
    if let Some(name) = &mapping.spec.spec().name {
        line.push_str(" ")?;
        line.push_str(quoted(alloc, name.as_str())?.as_str())?;
    }
    Ok(())
}
