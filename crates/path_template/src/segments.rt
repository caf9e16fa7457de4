// The segments of a path, one after the other.
ghost use Rattle.std.specs.Prelude.{◌≡◌, ◌∷◌, [], MatchOption, option_copied};
ghost use Rattle.std.specs.List.{list_all};
ghost use Rattle.mock_request.specs.Target.{IsRooted};
ghost use Rattle.mock_request.specs.Url.{segments_of};
ghost use Rattle.path_template.specs.Template.{name_in, is_name, is_parameter_byte};
ghost use Rattle.path_template.specs.Inner.Walks.{left_of};

/// The segments of a path that are left.
#[derive(Clone, Copy, Debug)]
pub(crate) struct Segments<'a> {
    // What is after the slash that comes before them.
    pub(crate) rest: Option<&'a str>,
}

impl<'a> Segments<'a> {
    /// Those of a path, which begins with a slash.
    pub(crate) fn of(path: &'a str) -> Option<Segments<'a>>
        ensures { MatchOption result (¬ (IsRooted path.now))
            (λ segments. IsRooted path.now × (left_of segments ≡ segments_of path.now)) }
    {
        let rest = path.strip_prefix('/')?;
        if rest.is_empty() {
            return Some(Segments { rest: None });
        }
        Some(Segments { rest: Some(rest) })
    }

    /// The first segment, and those after it.
    pub(crate) fn split_first(self) -> Option<(&'a str, Segments<'a>)>
        ensures { MatchOption result (left_of self.entry ≡ [])
            (λ parts. left_of self.entry ≡ parts.0.now ∷ left_of parts.1) }
    {
        let rest = self.rest?;
        match rest.split_once('/') {
            Some((first, rest)) => Some((first, Segments { rest: Some(rest) })),
            None => Some((rest, Segments { rest: None })),
        }
    }
}

/// The name of a segment that is a name in braces.
pub(crate) fn name_in(segment: &str) -> Option<&str>
    ensures { option_copied result ≡ name_in segment.now }
{
    let name = segment.strip_prefix('{')?.strip_suffix('}')?;
    if !is_name(name) {
        return None;
    }
    Some(name)
}

fn is_name(text: &str) -> bool
    ensures { result ≡ is_name text.now }
{
    !text.is_empty() && has_name_bytes(text)
}

fn has_name_bytes(text: &str) -> bool
    ensures { result ≡ list_all is_parameter_byte text.now }
{
    text.as_bytes().iter().all(|byte| is_parameter_byte(*byte))
}

fn is_parameter_byte(byte: u8) -> bool
    ensures { result ≡ is_parameter_byte byte }
{
    byte.is_ascii_alphanumeric() || byte == b'_' || byte == b'-'
}
