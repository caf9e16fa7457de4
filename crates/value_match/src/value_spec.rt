// What a value has to meet.
ghost use Rattle.std.specs.Prelude.{◌≡◌, ◌↔◌, IsTrue, option_copied};
ghost use Rattle.value_match.specs.Refusal.{pattern_of};

use plain_text::text::Text;

/// A value matcher as it was written.
#[derive(Clone, Debug, Drop)]
pub enum ValueSpec {
    EqualTo(Text),
    /// ASCII letters alone are compared without case.
    EqualToIgnoringCase(Text),
    Contains(Text),
    DoesNotContain(Text),
    /// The pattern matches the whole value.
    Matches(Text),
    DoesNotMatch(Text),
    Absent,
}

impl ValueSpec {
    /// Whether the two are equal.
    pub fn same(&self, other: &ValueSpec) -> bool
        ensures { IsTrue result ↔ (self.now ≡ other.now) }
    {
        match (self, other) {
            (ValueSpec::EqualTo(a), ValueSpec::EqualTo(b)) => a.same(b),
            (ValueSpec::EqualToIgnoringCase(a), ValueSpec::EqualToIgnoringCase(b)) => a.same(b),
            (ValueSpec::Contains(a), ValueSpec::Contains(b)) => a.same(b),
            (ValueSpec::DoesNotContain(a), ValueSpec::DoesNotContain(b)) => a.same(b),
            (ValueSpec::Matches(a), ValueSpec::Matches(b)) => a.same(b),
            (ValueSpec::DoesNotMatch(a), ValueSpec::DoesNotMatch(b)) => a.same(b),
            (ValueSpec::Absent, ValueSpec::Absent) => true,
            _ => false,
        }
    }

    /// The pattern, if it has one.
    pub(crate) fn pattern(&self) -> Option<&str>
        ensures { option_copied result ≡ pattern_of self.now }
    {
        match self {
            ValueSpec::Matches(pattern) | ValueSpec::DoesNotMatch(pattern) => {
                Some(pattern.as_str())
            }
            _ => None,
        }
    }
}
