//! The farm: the calling thread owns a graph and applies its events, workers make the calls of its boxes, and the lines of the records that come
//! out are written.
#![tactic(auto)]

mod farm;

pub use farm::{farm_drive, farm_run};
