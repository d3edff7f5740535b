//! A law of every input, as the contract of a function that does nothing.
ghost use Rattle.esm_input.specs.Within.{HandedWithin};

/// Every front of what an input hands out is within the limits of items, bytes, shards and lanes.
pub fn handed_is_within()
    ensures { HandedWithin }
{}
