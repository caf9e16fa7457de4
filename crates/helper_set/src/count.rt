//! What `size` counts.
ghost use Rattle.std.specs.Prelude.{◌≡◌, pos, min, length, chars};
ghost use Rattle.data_tree.specs.Tree.{view};
ghost use Rattle.helper_set.specs.Values.{count_in};
ghost use Rattle.helper_set.specs.Views.{found_view};
ghost use Rattle.helper_set.specs.declared.limits.TheConstants.{MAX_COUNT};

use crate::limits::MAX_COUNT;
use data_tree::data::Data;
use itoa::Buffer;

/// The items of a list or of a named text, the fields of an object, or else the characters of the printed text.
#[tactic(auto, using(crate::proofs::Counts::nothing_has_no_character))]
pub fn count_in_data(found: Option<&Data>) -> usize
    ensures { result ≡ count_in (found_view found.entry) }
{
    match found {
        None => 0,
        Some(data) => count_in(data),
    }
}

fn count_in(value: &Data) -> usize
    ensures { result ≡ count_in (view value.now) }
{
    match value {
        Data::Nothing => characters(""),
        Data::Truth(true) => characters("true"),
        Data::Truth(false) => characters("false"),
        Data::Number(number) => characters(Buffer::new().format(*number)),
        Data::Text(text) => characters(text.as_str()),
        Data::List(_) | Data::Fields(_) | Data::Named(_) | Data::Values(_) => value.items_len(),
    }
}

/// The characters of a text, and not its bytes.
pub fn characters(text: &str) -> usize
    ensures { result ≡ length (chars text.now) }
{
    text.chars().count()
}

/// The count as a number of 64 bits.
pub fn number_of(count: usize) -> i64
    ensures { result ≡ pos (min count MAX_COUNT) }
{
    count.min(MAX_COUNT) as i64
}
