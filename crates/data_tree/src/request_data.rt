// The root of what a template sees, within its limit.
ghost use Rattle.std.specs.Prelude.{◌≡◌, ◌≤◌};
ghost use Rattle.std.specs.Option.{ForSome};
ghost use Rattle.data_tree.specs.Tree.{view};
ghost use Rattle.data_tree.specs.Json.{size};
ghost use Rattle.data_tree.specs.LookUp.{EmptyNameFindsNothing};
ghost use Rattle.data_tree.specs.WellFormed.{IsWellFormed};
ghost use Rattle.data_tree.specs.Inner.OneProof.{IsWellFormed-prop};
ghost use Rattle.data_tree.specs.declared.request_data.TheConstants.{SIZE_LIMIT};

use crate::data::Data;
use error_code::error_code::ErrorCode;

/// The largest size that the data of a request may have: bytes of its compact JSON text, plus 1.
pub const SIZE_LIMIT: u64 = 16_777_216;

/// What a template sees of one request: a well-formed value within the limit, in whose root the empty name finds
/// nothing.
#[derive(Debug, Drop)]
pub struct RequestData {
    root: Data,
    /// The size of the root, where it was counted.
    counted: Option<u64>,
    ghost sized: { ForSome counted (λ root_size. root_size ≡ size (view root)) },
    ghost within_limit: { size (view root) ≤ SIZE_LIMIT },
    ghost well_formed: { IsWellFormed (view root) } by { IsWellFormed-prop (view root) },
    ghost no_empty_name: { EmptyNameFindsNothing (view root) },
}

/// Why there is no data for a request.
#[derive(Debug, Drop)]
pub enum DataError {
    /// The value is over the limit; here it is again.
    TooLarge(Data),
    /// While the value was made; `RequestData::new` itself takes no memory.
    OutOfMemory,
}

impl RequestData {
    ghost use Rattle.std.specs.Prelude.{◌≡◌, ◌≤◌, ◌<◌, MatchResult};
    ghost use Rattle.data_tree.specs.Tree.{view};
    ghost use Rattle.data_tree.specs.Json.{size};
    ghost use Rattle.data_tree.specs.LookUp.{EmptyNameFindsNothing};
    ghost use Rattle.data_tree.specs.WellFormed.{IsWellFormed};
    ghost use Rattle.data_tree.specs.RequestData.{root_of};

    /// Takes the value over, where it is within the limit. Takes no memory.
    pub fn new(root: Data) -> Result<RequestData, DataError>
        requires well_formed { IsWellFormed (view root) }
        requires no_empty_name { EmptyNameFindsNothing (view root) }
        ensures { MatchResult result
            (λ made. (root_of made ≡ view root) × (size (view root) ≤ SIZE_LIMIT))
            (λ error. (error ≡ DataError.TooLarge root) × (SIZE_LIMIT < size (view root))) }
    {
        let root_size = root.size();
        if root_size > SIZE_LIMIT {
            return Err(DataError::TooLarge(root));
        }
        let counted = Some(root_size);
        Ok(RequestData { root, counted })
    }

    /// Takes over a value that is known to be within the limit. Its size isn't counted.
    pub fn within_limit(root: Data) -> RequestData
        requires within_limit { size (view root) ≤ SIZE_LIMIT }
        requires well_formed { IsWellFormed (view root) }
        requires no_empty_name { EmptyNameFindsNothing (view root) }
        ensures { root_of result ≡ view root }
    {
        RequestData {
            root,
            counted: None,
        }
    }

    /// The size of the value. Where `new` took the value over, it is counted already.
    pub fn size(&self) -> u64
        ensures { result ≡ size (root_of self.now) }
    {
        match self.counted {
            Some(root_size) => root_size,
            None => self.root.size(),
        }
    }

    /// The value.
    pub fn root(&self) -> &Data
        ensures tree { view result.now ≡ root_of self.now }
        ensures within_limit { size (root_of self.now) ≤ SIZE_LIMIT }
        ensures well_formed { IsWellFormed (root_of self.now) }
        ensures no_empty_name { EmptyNameFindsNothing (root_of self.now) }
    {
        &self.root
    }
}

impl DataError {
    ghost use Rattle.std.specs.Prelude.{◌≡◌};
    ghost use Rattle.data_tree.specs.RequestData.{error_code_of};

    /// The code that is reported.
    pub fn error_code(&self) -> ErrorCode
        ensures { result ≡ error_code_of self.now }
    {
        match self {
            DataError::TooLarge(_) => ErrorCode::TooLarge,
            DataError::OutOfMemory => ErrorCode::OutOfMemory,
        }
    }
}
