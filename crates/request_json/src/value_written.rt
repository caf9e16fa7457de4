// The words that are written for a value matcher.
ghost use Rattle.std.specs.Prelude.{◌≡◌, OnOk};
ghost use Rattle.request_json.specs.ValueWritten.{with_value};
ghost use Rattle.serde_json.specs.View.{members_view};

use json_reading::written::{put_flag, put_text};
use serde_json::{Map, Value};
use std::alloc::{AllocError, Global};
use value_match::value_spec::ValueSpec;

/// Writes the words of the matcher beside what is there.
pub(crate) fn put_value(
    alloc: Global,
    members: &mut Map<String, Value>,
    matcher: &ValueSpec,
) -> Result<(), AllocError>
    ensures { OnOk result (members_view members.new.entries
        ≡ with_value matcher.now (members_view members.old.entries)) }
{
    match matcher {
        ValueSpec::EqualTo(text) => put_text(alloc, members, "equalTo", text),
        ValueSpec::EqualToIgnoringCase(text) => {
            put_text(alloc, members, "equalTo", text)?;
            put_flag(alloc, members, "caseInsensitive", true)
        }
        ValueSpec::Contains(text) => put_text(alloc, members, "contains", text),
        ValueSpec::DoesNotContain(text) => put_text(alloc, members, "doesNotContain", text),
        ValueSpec::Matches(pattern) => put_text(alloc, members, "matches", pattern),
        ValueSpec::DoesNotMatch(pattern) => put_text(alloc, members, "doesNotMatch", pattern),
        ValueSpec::Absent => put_flag(alloc, members, "absent", true),
    }
}
