//! Worked examples over devices: those in memory and the real ones, journals that are stopped, calls of functions, and
//! requests. The crate has only these tests, so each crate that they call is proved once.
#![tactic(auto)]

#[cfg(test)]
mod api;
#[cfg(test)]
mod crossing;
#[cfg(test)]
mod fleeting;
#[cfg(test)]
mod invoke;
#[cfg(test)]
mod journal;
#[cfg(test)]
mod memory;
#[cfg(test)]
mod real;
#[cfg(test)]
mod scarce;
#[cfg(test)]
mod sockets;
