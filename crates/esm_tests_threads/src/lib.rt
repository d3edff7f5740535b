//! Tests of batchers as threads, through the top call: calls that overlap, functions that take their time, a clock that
//! never stands still, and lines that several threads parse. The crate has only these tests, so the crate of the top call
//! is proved once.
#![tactic(auto)]

#[cfg(test)]
mod clocks;
#[cfg(test)]
mod functions;
#[cfg(test)]
mod gates;
#[cfg(test)]
mod lanes;
#[cfg(test)]
mod reading;
#[cfg(test)]
mod worlds;
