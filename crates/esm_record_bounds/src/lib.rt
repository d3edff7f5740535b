//! Laws of what a legal history of a stream owes and may write, which the contract of no single call states. Pure: values
//! in, values out. No device, clock or thread.
#![tactic(auto)]

pub mod laws;
