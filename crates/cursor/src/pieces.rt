// A cursor's way past the pieces of a line: runs, numbers, names [01 §6].
ghost use Rattle.std.specs.Prelude.{◌≡◌, ◌+◌, ◌<◌, ◌^◌, drop, length};
ghost use Rattle.cursor.specs.Bytes.{passes, run};
ghost use Rattle.cursor.specs.Digits.{Digits};
ghost use Rattle.cursor.specs.Pieces.{moved, next_line, decimal, number_at, name_at, name_to, name_end, plain_part, quote_part};

use super::alphabet::plain_byte;
use super::{Cell, Class, Cursor};

// A name has at most so many bytes, quotes counted.
const NAME_MOST: usize = 24;

// The decimal value of digits.
pub(crate) fn value(digits: &[u8]) -> u64
    requires { Digits digits.now }
    ensures { result ≡ decimal 0 digits.now }
{
    let mut v = 0;
    for b in digits {
        v = v * 10 + u64::from(*b - b'0');
    }
    v
}

impl Cursor {
    // So many bytes on, in the same line.
    pub(crate) fn ahead(self, n: usize) -> Cursor
        requires { self.at + n < 2 ^ 64 }
        ensures { result ≡ moved self n }
    {
        Cursor {
            at: self.at + n,
            line: self.line,
        }
    }

    // Past the bytes of a class that come next.
    pub fn skip(self, class: Class, s: &[u8]) -> Cursor
        ensures { result ≡ moved self (run (passes class) (drop self.at s.now)) }
    {
        let mut past = self;
        for i in self.at..s.len() {
            if !class.passes(&s[i..]) {
                break;
            }
            past = past.ahead(1);
        }
        past
    }

    // A number, with the cursor past it: one to nine digits, no leading zero but 0 itself.
    pub(crate) fn number(self, s: &[u8]) -> Option<(Cell, Cursor)>
        ensures { result ≡ number_at self (drop self.at s.now) }
    {
        let past = self.skip(Class::Digit, s);
        if past.at == self.at {
            return None;
        }
        let digits = &s[self.at..past.at];
        if 9 < digits.len() {
            return None;
        }
        if 1 < digits.len() && digits[0] == b'0' {
            return None;
        }
        Some((Cell::Number(value(digits)), past))
    }

    // In a quoted name: plain bytes up to the next quote.
    #[tactic(auto, using(crate::proofs::ByteLaws::left), unfolding(crate::specs::Pieces::plain_part))]
    #[cycle(plain_quote)]
    pub(crate) fn plain(self, s: &[u8]) -> Option<Cursor>
        ensures { result ≡ name_to self.line (plain_part self.at (drop self.at s.now)) }
    {
        match s.get(self.at)? {
            b'"' => self.ahead(1).quote(s),
            b if plain_byte(*b) => self.ahead(1).plain(s),
            _ => None,
        }
    }

    // After a quote: a second one doubles it, otherwise it closes the name.
    #[tactic(auto, using(crate::proofs::ByteLaws::left), unfolding(crate::specs::Pieces::quote_part))]
    #[cycle(plain_quote)]
    pub(crate) fn quote(self, s: &[u8]) -> Option<Cursor>
        ensures { result ≡ name_to self.line (quote_part self.at (drop self.at s.now)) }
    {
        match s.get(self.at) {
            Some(b'"') => self.ahead(1).plain(s),
            _ => Some(self),
        }
    }

    // Past a name that ends within `w`.
    #[tactic(auto, using(crate::proofs::ByteLaws::left), unfolding(crate::specs::Pieces::name_end, crate::specs::Pieces::bare_end))]
    pub(crate) fn name_within(self, w: &[u8]) -> Option<Cursor>
        ensures { result ≡ name_to self.line (name_end self.at (drop self.at w.now)) }
    {
        if let Some(b'"') = w.get(self.at) {
            return self.ahead(1).plain(w);
        }
        let past = self.skip(Class::Bare, w);
        if past.at == self.at {
            return None;
        }
        Some(past)
    }

    // Past a name of 1 to 24 bytes, quoted or not: no more than 24 bytes are looked at.
    pub(crate) fn name(self, s: &[u8]) -> Option<Cursor>
        ensures { result ≡ name_at self (drop self.at s.now) }
    {
        let end = self.at.saturating_add(NAME_MOST).min(s.len());
        self.name_within(&s[..end])
    }

    // Behind the CRLF that comes next.
    pub fn next_line(self) -> Cursor
        requires { (self.at < 9223372036854775808) × (self.line < 9223372036854775810) }
        ensures { result ≡ next_line self }
    {
        Cursor {
            at: self.at + 2,
            line: self.line + 1,
        }
    }
}
