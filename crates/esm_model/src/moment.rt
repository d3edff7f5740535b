/// The greatest moment, in milliseconds since 1970: 9999-12-31T23:59:59.999Z. Sums of moments are capped here.
pub const MAX_MOMENT: u64 = 253_402_300_799_999;
