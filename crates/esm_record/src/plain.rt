//! Bytes with a proof that they are UTF-8. They stand in for a `str`, which cannot be made without reading them once more.
ghost use Rattle.std.specs.Prelude.{◌≡◌, true};
ghost use Rattle.std.specs.Str.{is_utf8};

/// Bytes that are UTF-8.
#[derive(Clone, Copy, Drop)]
pub struct Plain<'a> {
    pub bytes: &'a [u8],
    ghost utf8: { is_utf8 bytes.now ≡ true },
}
