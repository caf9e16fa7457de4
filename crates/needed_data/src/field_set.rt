// Sets of fields of a request: a bit for each.
ghost use Rattle.std.specs.Prelude.{◌≡◌, ◌↔◌, [], IsTrue};
ghost use Rattle.needed_data.specs.Fields.{name_of};
ghost use Rattle.needed_data.specs.Inner.FieldSet.{names_in, has_name, HasNamesOf};

use crate::request_field::RequestField;

/// The set of one field.
pub(crate) fn set_of(field: RequestField) -> u16
    ensures { IsTrue (has_name result (name_of field)) }
{
    1 << field.index()
}

/// The fields of both.
pub(crate) fn union(set: u16, other: u16) -> u16
    ensures first { HasNamesOf result set }
    ensures second { HasNamesOf result other }
{
    set | other
}

pub(crate) fn has_field(set: u16, field: RequestField) -> bool
    ensures { result ≡ has_name set (name_of field) }
{
    (set >> field.index()) & 1 == 1
}

// Bits of no field don't count.
pub(crate) fn is_empty(set: u16) -> bool
    ensures { IsTrue result ↔ (names_in set ≡ []) }
{
    set & 4095 == 0
}
