//! The values that helpers take and give.

use data_tree::data::Data;
use std::alloc::Global;
use std::borrow::CowStr;

/// A value as helpers take it: borrowed from the request's data, from the code, or from the slot that owns a text.
#[derive(Clone, Copy, Debug)]
pub enum Value<'a> {
    /// A value of the request's data; `None` is Nothing.
    Datum(Option<&'a Data>),
    Text(&'a str),
    Number(i64),
    Truth(bool),
}

/// A value as helpers give it. Its text is owned, or lent: a part of an argument.
#[derive(Debug, Drop)]
pub enum MadeValue<'a> {
    Text(CowStr<'a, Global>),
    Number(i64),
    Truth(bool),
}
