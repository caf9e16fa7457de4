// A part of a document that is read, or wrong, and how parts are put together.
ghost use Rattle.std.specs.Prelude.{◌≡◌, Some, IfOk};
ghost use Rattle.json_reading.specs.Reading.{both, read_map, either, needed, wrong_also, pushed};

use crate::kind::Kind;
use plain_text::items::Items;
use std::alloc::AllocError;

/// What a part of a document says, or in which way it is wrong.
#[derive(Debug, Drop)]
pub enum Reading<T> {
    Read(T),
    Wrong(Kind),
}

/// Two parts of one document.
pub fn both<A: Drop, B: Drop>(a: Reading<A>, b: Reading<B>) -> Reading<(A, B)>
    ensures { result ≡ both a b }
{
    match (a, b) {
        (Reading::Read(a), Reading::Read(b)) => Reading::Read((a, b)),
        (Reading::Read(_), Reading::Wrong(kind)) => Reading::Wrong(kind),
        (Reading::Wrong(kind), Reading::Read(_)) => Reading::Wrong(kind),
        (Reading::Wrong(a), Reading::Wrong(b)) => Reading::Wrong(a.first(b)),
    }
}

/// A part that is there.
pub fn some<T: Drop>(part: Reading<T>) -> Reading<Option<T>>
    ensures { result ≡ read_map Some part }
{
    match part {
        Reading::Read(value) => Reading::Read(Some(value)),
        Reading::Wrong(kind) => Reading::Wrong(kind),
    }
}

/// The one of two parts that is there; both are wrong together, in the way that is given.
pub fn either<T: Drop>(
    kind: Kind,
    a: Reading<Option<T>>,
    b: Reading<Option<T>>,
) -> Reading<Option<T>>
    ensures { result ≡ either kind a b }
{
    match (a, b) {
        (Reading::Read(None), b) => b,
        (Reading::Read(a), Reading::Read(None)) => Reading::Read(a),
        (Reading::Read(_), Reading::Read(_)) => Reading::Wrong(kind),
        (Reading::Read(_), Reading::Wrong(kind)) => Reading::Wrong(kind),
        (Reading::Wrong(kind), Reading::Read(_)) => Reading::Wrong(kind),
        (Reading::Wrong(a), Reading::Wrong(b)) => Reading::Wrong(a.first(b)),
    }
}

/// A part that may not be missing.
pub fn needed<T: Drop>(part: Reading<Option<T>>) -> Reading<T>
    ensures { result ≡ needed part }
{
    match part {
        Reading::Read(Some(value)) => Reading::Read(value),
        Reading::Read(None) => Reading::Wrong(Kind::Misshapen),
        Reading::Wrong(kind) => Reading::Wrong(kind),
    }
}

/// A part that is wrong in this way too.
pub fn wrong_also<T: Drop>(kind: Kind, part: Reading<T>) -> Reading<T>
    ensures { result ≡ wrong_also kind part }
{
    match part {
        Reading::Read(_) => Reading::Wrong(kind),
        Reading::Wrong(other) => Reading::Wrong(kind.first(other)),
    }
}

/// A list of parts, and one more after them.
pub fn push<T: Drop>(
    list: Reading<Items<T>>,
    item: Reading<T>,
) -> Result<Reading<Items<T>>, AllocError>
    ensures { IfOk result (λ longer. longer ≡ pushed list item) }
{
    match both(list, item) {
        Reading::Read((list, item)) => {
            let mut items = list.into_vec();
            items.push(item)?;
            Ok(Reading::Read(Items::from(items)))
        }
        Reading::Wrong(kind) => Ok(Reading::Wrong(kind)),
    }
}
