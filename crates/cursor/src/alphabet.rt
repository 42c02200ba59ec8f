// The bytes that numbers, names and lines are made of [01 §6].
ghost use Rattle.std.specs.Prelude.{◌≡◌};
ghost use Rattle.cursor.specs.Bytes.{digit_byte, plain_byte, bare_byte, crlf, passes};

use super::Class;

#[tactic(auto, using(crate::proofs::ByteLaws::left), unfolding(crate::specs::Bytes::digit_byte))]
fn digit_byte(b: u8) -> bool
    ensures { result ≡ digit_byte b }
{
    matches!(b, b'0'..=b'9')
}

#[tactic(auto, using(crate::proofs::ByteLaws::left), unfolding(crate::specs::Bytes::plain_byte))]
pub(crate) fn plain_byte(b: u8) -> bool
    ensures { result ≡ plain_byte b }
{
    matches!(b, b' '..=b'~') && b != b'"'
}

#[tactic(auto, using(crate::proofs::ByteLaws::left), unfolding(crate::specs::Bytes::bare_byte))]
fn bare_byte(b: u8) -> bool
    ensures { result ≡ bare_byte b }
{
    b != b',' && plain_byte(b)
}

#[tactic(auto, using(crate::proofs::ByteLaws::left), unfolding(crate::specs::Bytes::crlf))]
fn crlf(left: &[u8]) -> bool
    ensures { result ≡ crlf left.now }
{
    matches!(left, [b'\r', b'\n', ..])
}

impl Class {
    // The first of the bytes that are left passes as one of the class.
    #[tactic(auto, using(crate::proofs::ByteLaws::left), unfolding(crate::specs::Bytes::passes))]
    pub(crate) fn passes(self, left: &[u8]) -> bool
        ensures { result ≡ passes self left.now }
    {
        match self {
            Class::Digit => matches!(left, [b, ..] if digit_byte(*b)),
            Class::Bare => matches!(left, [b, ..] if bare_byte(*b)),
            Class::InLine => !crlf(left),
        }
    }
}
