//! Requests of one input in two protocols: placed by its HTTP binding traits, and posted whole.
#![tactic(auto)]

mod calls;
pub mod laws;
mod rest_requests;
mod rpc_requests;
mod sending;
mod setting;

pub use rest_requests::to_rest;
pub use rpc_requests::to_rpc;
/// Why a request has none in the other protocol: no typed input has it, or memory was wanted and not there.
pub use smithy_recovery::RecoverError as GatewayError;
