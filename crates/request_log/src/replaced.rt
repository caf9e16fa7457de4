// Mappings that gave way to others.
use itoa::Buffer;
use request_journal::event::Event;
use std::alloc::{AllocError, Global};

/// A warning that as many mappings gave way to those that the event added.
pub(crate) fn replaced_line(
    alloc: Global,
    call: &str,
    event: &Event,
    replaced: u64,
) -> Result<String, AllocError> {
    let mut line = String::from_str(alloc, "warning: ")?;
    line.push_str(call)?;
    match event {
        Event::Add(mapping) => {
            line.push_str(": it replaces the mapping that had its id, ")?;
            line.push_str(mapping.id.hyphenated(alloc)?.as_str())?;
            line.push_str("\n")?;
        }
        _ => {
            line.push_str(": of the recorded mappings, ")?;
            line.push_str(Buffer::new().format(replaced))?;
            line.push_str(
                " replaced mappings that had their ids; a server that is started with another --first-event gives other ids\n",
            )?;
        }
    }
    Ok(line)
}
