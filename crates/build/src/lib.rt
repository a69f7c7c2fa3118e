// Checking sequences: transfers from state to state, the prescribed sequence, refusals 8 and 9.
#![tactic(auto)]

mod distances;
mod loading;
mod service;
mod table;
mod transfers;
mod writing;

pub use loading::load_connected;
pub use service::{build, build_with_records};
pub use transfers::{Path, transfer};
