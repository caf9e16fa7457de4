// Scenarios of recorded mappings that other mappings take part in, too.
use mapping_diagnosis::shown::quoted;
use plain_text::text::Text;
use request_journal::mapping::Mapping;
use std::alloc::{AllocError, Global};

/// How many names are looked at.
const NAMES: usize = 10;

/// Whether one of the mappings takes part in a scenario.
pub(crate) fn have_scenario(mappings: &[Mapping]) -> bool {
    for mapping in mappings {
        if mapping.spec.spec().scenario.is_some() {
            return true;
        }
    }
    false
}

/// A warning for each scenario of recorded mappings that has more live mappings than the recording has made.
pub(crate) fn shared_name_lines(
    alloc: Global,
    call: &str,
    recorded: &[Mapping],
    live: &[Mapping],
) -> Result<String, AllocError> {
    let mut lines = String::new(alloc);
    let mut names: Vec<&Text> = Vec::new(alloc);
    for mapping in recorded {
        let Some(name) = name_of(mapping) else {
            continue;
        };
        if names.len() == NAMES || has_name(names.as_slice(), name) {
            continue;
        }
        names.push(name)?;
        if count_of(live, name) > count_of(recorded, name) {
            push_line(alloc, &mut lines, call, name)?;
        }
    }
    Ok(lines)
}

fn has_name(names: &[&Text], name: &Text) -> bool {
    for other in names {
        if other.same(name) {
            return true;
        }
    }
    false
}

fn name_of(mapping: &Mapping) -> Option<&Text> {
    Some(&mapping.spec.spec().scenario.as_ref()?.name)
}

fn is_of(mapping: &Mapping, name: &Text) -> bool {
    matches!(name_of(mapping), Some(other) if other.same(name))
}

fn count_of(mappings: &[Mapping], name: &Text) -> usize {
    let mut count: usize = 0;
    for mapping in mappings {
        if is_of(mapping, name) {
            count = count.saturating_add(1);
        }
    }
    count
}

fn push_line(alloc: Global, lines: &mut String, call: &str, name: &Text) -> Result<(), AllocError> {
    lines.push_str("warning: ")?;
    lines.push_str(call)?;
    lines.push_str(": the scenario ")?;
    lines.push_str(quoted(alloc, name.as_str())?.as_str())?;
    lines.push_str(
        " has mappings that aren't of this recording, too, so requests for either move the state of both\n",
    )
}
