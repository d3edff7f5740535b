/// How a number compares to a bound.
#[derive(Clone, Copy, Debug, PartialEq, Eq)]
pub(crate) enum Comparison {
    Equal,
    Below,
    AtMost,
    Above,
    AtLeast,
}

/// A bound of `numeric`.
#[derive(Clone, Copy, Debug, PartialEq, Eq)]
pub(crate) struct Bound {
    pub(crate) comparison: Comparison,
    pub(crate) value: i64,
}

/// What a leaf can equal.
#[derive(Drop, Debug)]
pub(crate) enum Scalar {
    Text(String),
    Whole(i64),
}

/// One test of a field's leaves (EventBridge event pattern syntax).
#[derive(Drop, Debug)]
pub(crate) enum Test {
    Equals(Scalar),
    Truth(bool),
    Nothing,
    EqualsIgnoreCase(String),
    AnythingBut(Vec<Scalar>),
    Numeric(Vec<Bound>),
    Prefix(String),
    Suffix(String),
    Exists(bool),
}

/// What a field has to meet.
#[derive(Drop)]
pub(crate) enum Rule {
    /// One of these tests has to pass for its leaves.
    Tests(Vec<Test>),
    /// An object pattern: each member has to pass for its value.
    Nested(Vec<(String, Rule)>),
    /// Only under the key `$or`: one of these, each an object pattern, has to pass for the same object.
    OneOf(Vec<Rule>),
}
