// Reading one line [01 §6].
ghost use Rattle.std.specs.Prelude.{◌≡◌, drop};
ghost use Rattle.text.specs.Line.{columns_of, Usable, line_read};

use super::{Columns, LineRead, NUMBERS_MOST};
use cursor::{Cell, Cursor};

// The line from here to the end of `s`.
pub(crate) fn read_line(from: Cursor, s: &[u8], columns: Columns) -> Option<LineRead>
    requires { Usable columns }
    ensures { result ≡ line_read (columns_of columns) from.at (drop from.at s.now) }
{
    let mut numbers = [0u64; NUMBERS_MOST];
    let mut name = None;
    let mut c = from;
    let mut n = 0;
    for k in 0..columns.count() {
        let (cell, past) = c.field(k == 0, columns.kind(k), s)?;
        match cell {
            Cell::Number(v) => {
                numbers[n] = v;
                n += 1;
            }
            Cell::Name(place) => name = Some(place),
        }
        c = past;
    }
    if c.at < s.len() {
        return None;
    }
    Some(LineRead { numbers, name })
}
