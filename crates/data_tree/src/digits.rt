// Texts of decimal digits, and the index that one spells.
ghost use Rattle.std.specs.Prelude.{◌≡◌};
ghost use Rattle.std.specs.Str.{all_ascii_digits};
ghost use Rattle.data_tree.specs.Digits.{is_index, index_of};

/// The most digits that an index is written with.
pub const INDEX_DIGITS: usize = 9;

/// Whether each byte is an ASCII digit; the empty text has none that isn't.
pub fn is_digits(text: &str) -> bool
    ensures { result ≡ all_ascii_digits text.now }
{
    text.as_bytes().iter().all(|byte| byte.is_ascii_digit())
}

fn is_index(text: &str) -> bool
    ensures { result ≡ is_index text.now }
{
    0 < text.len()
        && text.len() <= INDEX_DIGITS
        && is_digits(text)
        && (text.len() == 1 || text.as_bytes()[0] != b'0')
}

/// The index that the text spells: `0`, or one to nine digits of which the first isn't `0`.
pub fn index_of(text: &str) -> Option<u32>
    ensures { result ≡ index_of text.now }
{
    if is_index(text) {
        text.parse().ok()
    } else {
        None
    }
}
