//! Worked examples of what a stream's book decides: which call begins, which records expire, what the end of a call
//! requires, and when a batcher pauses or stops. The decisions go through exactly the worked histories of `esm_model`. Each
//! fact is computed from the definitions; the functions do nothing.
#![tactic(auto)]

pub mod arrivals;
pub mod batchers;
pub mod histories;
