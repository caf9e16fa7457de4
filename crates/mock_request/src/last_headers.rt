// The headers that came last.
ghost use Rattle.std.specs.Prelude.{◌≡◌, IfOk};
ghost use Rattle.std.specs.Arc.{arc_value};
ghost use Rattle.http_header.specs.HeaderMap.{pairs};
ghost use Rattle.mock_request.specs.Request.{headers_of};

use crate::fields::Fields;
use http_header::HeaderMap;
use std::alloc::{AllocError, Global};
use std::sync::Arc;

/// The headers of the request that came last, if one came: a client mostly sends the same ones again, and the next
/// request then shares them.
#[derive(Debug, Drop)]
pub struct LastHeaders {
    fields: Option<Arc<Fields>>,
}

impl LastHeaders {
    /// No request has come yet.
    pub fn none() -> LastHeaders {
        LastHeaders { fields: None }
    }

    /// Whether no request has come yet.
    pub fn is_none(&self) -> bool {
        self.fields.is_none()
    }

    /// The same headers, which are shared. Takes no memory; where they have no room for one more owner it is none.
    pub fn share(&self) -> LastHeaders {
        LastHeaders {
            fields: self.shared(),
        }
    }

    fn shared(&self) -> Option<Arc<Fields>> {
        Arc::try_clone(self.fields.as_ref()?).ok()
    }

    /// The headers in the map: the last ones, where these are the same, and else a copy, which are the last
    /// from now on.
    pub(crate) fn fields_of(
        &mut self,
        alloc: Global,
        headers: &HeaderMap,
    ) -> Result<Arc<Fields>, AllocError>
        ensures { IfOk result (λ kept. arc_value kept ≡ headers_of (pairs headers.now)) }
    {
        if let Some(last) = &self.fields
            && last.are_of_map(headers)
        {
            return Arc::try_clone(last);
        }
        let fields = Arc::new(alloc, Fields::of_map(alloc, headers)?)?;
        self.fields = Some(Arc::try_clone(&fields)?);
        Ok(fields)
    }
}
