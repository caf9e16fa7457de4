// The answer to an admin call.
use crate::listing::Listing;
use mapping_model::reply::Reply;

/// The answer to an admin call: a reply, or the text of a list, which is written piece by piece and is the body of a
/// reply with status 200.
#[derive(Drop)]
pub enum AdminAnswer {
    Whole(Reply),
    Listed(Listing),
}
