// The fields of a record's line, as slices of the line or of the scratch memory that reading it used.
ghost use Rattle.std.specs.Prelude.{◌≡◌, true, Some, length, option_map};
ghost use Rattle.std.specs.Result.{result_ok};
ghost use Rattle.std.specs.Str.{is_utf8};
ghost use Rattle.base64.specs.Engines.{standard};
ghost use Rattle.base64.specs.GeneralPurpose.{decode_of};
ghost use Rattle.esm_model.specs.Sequence.{is_sequence};

/// A base64 text, and the number of bytes that it encodes.
#[derive(Clone, Copy, Drop)]
pub struct Base64<'a> {
    pub text: &'a [u8],
    pub len: u32,
    ghost encoded: { option_map length (result_ok (decode_of standard text.now)) ≡ Some len },
}

/// The fields of a record's line.
#[derive(Clone, Copy, Drop)]
pub struct Fields<'a> {
    /// The number of the shard.
    pub shard: u64,
    /// The digits of the sequence number.
    pub seq: &'a [u8],
    /// The partition key, in UTF-8.
    pub key: &'a [u8],
    pub payload: Base64<'a>,
    /// Its approximate arrival, in milliseconds since 1970.
    pub arrival: u64,
    ghost number: { is_sequence seq.now ≡ true },
    ghost utf8: { is_utf8 key.now ≡ true },
}
