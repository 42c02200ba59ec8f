// Reading a text of lines under a header, each line of numbers with a name among them or none [01 §6].
#![tactic(auto)]

mod keep;
mod layout;
mod line;

ghost use Rattle.std.specs.Prelude.{◌≡◌, ◌≤◌, length, drop};
ghost use Rattle.text.specs.Text.{lines, Ready, LinesTaken, TextTaken};

use cursor::{Class, Cursor, Place};
use keep::keep_row;
use line::read_line;

// A line of at most so many numbers can be read.
pub const NUMBERS_MOST: usize = 32;

// The layout of a line: so many numbers, a name or none, so many numbers.
#[derive(Clone, Copy)]
pub struct Columns {
    pub before: usize,
    pub named: bool,
    pub after: usize,
}

// A line read: its numbers, with zeros behind them, since there is no heap for just as many, and its name's place, if the layout has a name.
#[derive(Clone, Copy)]
pub struct LineRead {
    pub numbers: [u64; NUMBERS_MOST],
    pub name: Option<Place>,
}

// The first bad line of a text, 0 where the text is too long: TEXT is given with it (`too-long-exactly`).
#[derive(Clone, Copy)]
pub struct BadLine(pub u64);

// A text has at most so many bytes.
pub const TEXT_MOST: usize = 65536;

// Room to read one into: a byte more, so that a longer one is seen to be longer.
pub const TEXT_ROOM: usize = TEXT_MOST + 1;

// The lines from a cursor on, a row in each; how many there are, or the first bad one. The buffers stay two parameters: `Taken` says of
// each what it holds, and every caller lends two of its own.
pub fn read_rows(
    text: &[u8],
    from: Cursor,
    columns: Columns,
    numbers: &mut [u64],
    names: &mut [Place],
) -> Result<usize, BadLine>
    requires { Ready columns from }
    ensures { LinesTaken columns from.at from.line (lines (drop from.at text.now))
        numbers.old names.old numbers.new names.new result }
{
    let mut c = from;
    let mut n = 0;
    // each turn goes on by a line, whose length no `for` knows
    while c.at < text.len() {
        let past = c.skip(Class::InLine, text);
        let Some(row) = read_line(c, &text[..past.at], columns) else {
            return Err(BadLine(c.line));
        };
        keep_row(numbers, names, columns, n, row);
        c = past.next_line();
        n += 1;
    }
    Ok(n)
}

// What is left of a text at a cursor: at most 65,536 bytes, the header, then a row in each line; how many rows, or the first bad line.
pub fn read_text(
    text: &[u8],
    from: Cursor,
    header: &[u8],
    columns: Columns,
    numbers: &mut [u64],
    names: &mut [Place],
) -> Result<usize, BadLine>
    requires ready { Ready columns from }
    requires at_in_bounds { from.at ≤ length text.now }
    ensures { TextTaken header.now columns from.at from.line (drop from.at text.now)
        numbers.old names.old numbers.new names.new result }
{
    if TEXT_MOST < text.len() - from.at {
        return Err(BadLine(0));
    }
    let past = from.skip(Class::InLine, text);
    if &text[from.at..past.at] != header {
        return Err(BadLine(from.line));
    }
    read_rows(text, past.next_line(), columns, numbers, names)
}
