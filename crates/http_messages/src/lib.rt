// Messages of `http` on both sides of a server: the request that one is (`received`), whether its content can be read
// (`transfer_coding`), and what is sent of a response (`wire`). Contracts cite `specs/Received.antt`,
// `specs/TransferCoding.antt` and `specs/Wire.antt`.
#![tactic(auto)]

pub mod error;
pub mod received;
pub mod transfer_coding;
pub mod wire;
