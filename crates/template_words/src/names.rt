// Words with names in them: hash arguments, block parameters, and the first part of a path.
ghost use Rattle.std.specs.Prelude.{◌≡◌};
ghost use Rattle.template_words.specs.Names.{is_hash_argument, only_name, name_in_bars, is_name_after_bar};
ghost use Rattle.template_words.specs.Names.{name_before_bar, first_part};
ghost use Rattle.template_words.specs.Views.{part_view};

use crate::marks::{after_mark, around_mark};
use crate::paths::{around_dot, is_name};
use crate::words::{closed_at_end, enclosed};

/// Whether the word is a name and `=`, before anything.
pub fn is_hash_argument(text: &str) -> bool
    ensures { result ≡ is_hash_argument text.now }
{
    matches!(around_mark(text, "="), Some((name, _)) if is_name(name))
}

fn only_name(text: &str) -> Option<&str>
    ensures { part_view result ≡ only_name (Some text.now) }
{
    if is_name(text) { Some(text) } else { None }
}

/// The name between two bars.
pub fn name_in_bars(text: &str) -> Option<&str>
    ensures { part_view result ≡ name_in_bars text.now }
{
    only_name(enclosed(text, "|", "|")?)
}

/// Whether the word is a bar and a name.
pub fn is_name_after_bar(text: &str) -> bool
    ensures { result ≡ is_name_after_bar text.now }
{
    matches!(after_mark(text, "|"), Some(name) if is_name(name))
}

/// The name before a bar that ends the word.
pub fn name_before_bar(text: &str) -> Option<&str>
    ensures { part_view result ≡ name_before_bar text.now }
{
    only_name(closed_at_end(text, "|")?)
}

/// The text of a path up to its first dot.
pub fn first_part(text: &str) -> &str
    ensures { result.now ≡ first_part text.now }
{
    match around_dot(text) {
        Some((front, _)) => front,
        None => text,
    }
}
