// What is told of a call that was accepted.
use crate::receipt::Receipt;

/// The receipt of a call, the number up to which a checkpoint had dropped events after it, and how many mappings gave way
/// to what it adds.
#[derive(Drop)]
pub(crate) struct Entered {
    pub(crate) receipt: Receipt,
    pub(crate) base: u64,
    pub(crate) replaced: u64,
}
