// What a request is answered with.
ghost use Rattle.std.specs.Prelude.{◌≡◌, ◌↔◌, IfOk, IsTrue};

use crate::field_name::FieldName;
use bytes::Bytes;
use plain_text::items::Items;
use plain_text::octets::Octets;
use plain_text::plain::Same;
use std::alloc::AllocError;

/// A header line of a reply.
#[derive(Clone, Drop)]
pub struct ReplyHeader {
    pub name: FieldName,
    pub value: Octets,
}

impl Same for ReplyHeader {
    fn same(&self, other: &ReplyHeader) -> bool {
        self.name.same(&other.name) && self.value.same(&other.value)
    }
}

/// A reply: a stub's, the server's own, or that of an upstream, which may have any status.
#[derive(Clone, Drop)]
pub struct Reply {
    pub status: u16,
    pub headers: Items<ReplyHeader>,
    pub body: Bytes,
}

impl Reply {
    /// Shares the body.
    pub fn try_clone(&self) -> Result<Reply, AllocError>
        ensures { IfOk result (λ copy. copy ≡ self.now) }
    {
        self.clone()
    }

    pub fn same(&self, other: &Reply) -> bool
        ensures { IsTrue result ↔ (self.now ≡ other.now) }
    {
        self.status == other.status
            && self.headers.same(&other.headers)
            && self.body.as_slice() == other.body.as_slice()
    }
}
