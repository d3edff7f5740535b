//! Where a byte of a JSON text is, and which bytes separate the members of its outermost object.
ghost use Rattle.std.specs.Prelude.{◌≡◌, ◌+◌, ◌<◌, ◌≤◌, ◌^◌};
ghost use Rattle.esm_window.specs.Scan.{is_mark, depth_after, part_after, is_space};
ghost use Rattle.esm_window.specs.Marks.{part_of};

/// Where a byte is.
#[derive(Clone, Copy)]
pub enum Part {
    /// Outside texts.
    Outside,
    /// In a text.
    InText,
    /// In a text, just after a backslash.
    InEscape,
}

impl Part {
    /// The part that the byte after `byte` is in.
    pub fn after(self, byte: u8) -> Part
        ensures { part_of result ≡ part_after (part_of self) byte }
    {
        match self {
            Part::Outside if byte == b'"' => Part::InText,
            Part::InText if byte == b'"' => Part::Outside,
            Part::InText if byte == b'\\' => Part::InEscape,
            Part::Outside => Part::Outside,
            Part::InText | Part::InEscape => Part::InText,
        }
    }

    /// The number of open brackets after `byte`, if `depth` are open before it.
    pub fn depth_after(self, depth: usize, byte: u8) -> usize
        requires { depth + 1 < 2 ^ 64 }
        ensures depth { result ≡ depth_after (part_of self) depth byte }
        ensures bound { result ≤ depth + 1 }
    {
        match self {
            Part::Outside if byte == b'{' || byte == b'[' => depth + 1,
            Part::Outside if byte == b'}' || byte == b']' => depth.saturating_sub(1),
            _ => depth,
        }
    }

    /// Whether `byte` is a brace of the outermost object, or one of its colons and commas.
    pub fn is_mark(self, depth: usize, byte: u8) -> bool
        ensures { result ≡ is_mark (part_of self) depth byte }
    {
        match self {
            Part::Outside => {
                (byte == b'{' && depth == 0)
                    || ((byte == b'}' || byte == b':' || byte == b',') && depth == 1)
            }
            Part::InText | Part::InEscape => false,
        }
    }
}

/// Whether the byte is white space in JSON.
pub fn is_space(byte: u8) -> bool
    ensures { result ≡ is_space byte }
{
    byte == b' ' || byte == b'\t' || byte == b'\n' || byte == b'\r'
}
