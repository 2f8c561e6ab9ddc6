//! The bytes of which the words of SQL are made.
ghost use Rattle.std.specs.Prelude.{◌≡◌};
ghost use Rattle.sql_locks.specs.Text.{is_in_class};

/// A class of bytes, of which a run in a word of SQL is made.
#[derive(Clone, Copy, PartialEq, Eq)]
pub enum ByteClass {
    /// Spaces, tabs and ends of lines.
    Blank,
    /// The decimal digits `0` to `9`.
    Digit,
    /// What a number is made of, after its first digit or point: digits, letters, points and underscores.
    Number,
    /// The bytes of which an operator is made, as `+`, `<` or `=`.
    Operator,
    /// What a name is made of, after its first character.
    Name,
    /// What a dollar tag is made of.
    Tag,
    /// All bytes but the one that ends a line.
    Line,
}

impl ByteClass {
    /// Whether `byte` is of this class.
    pub fn has(self, byte: u8) -> bool
        ensures { result ≡ is_in_class self byte }
    {
        match self {
            ByteClass::Blank => matches!(byte, b' ' | b'\t'..=b'\r'),
            ByteClass::Digit => byte.is_ascii_digit(),
            ByteClass::Number =>
                matches!(byte, b'0'..=b'9' | b'A'..=b'Z' | b'a'..=b'z' | b'_' | b'.'),
            ByteClass::Operator => matches!(
                byte,
                b'+' | b'-'
                    | b'*'
                    | b'/'
                    | b'<'
                    | b'>'
                    | b'='
                    | b'~'
                    | b'!'
                    | b'@'
                    | b'#'
                    | b'%'
                    | b'^'
                    | b'&'
                    | b'|'
                    | b'`'
                    | b'?'
            ),
            ByteClass::Name => {
                matches!(byte, b'0'..=b'9' | b'A'..=b'Z' | b'a'..=b'z' | b'_' | b'$' | 128..)
            }
            ByteClass::Tag =>
                matches!(byte, b'0'..=b'9' | b'A'..=b'Z' | b'a'..=b'z' | b'_' | 128..),
            ByteClass::Line => byte != b'\n',
        }
    }
}
