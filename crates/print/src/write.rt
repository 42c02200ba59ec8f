// Writing bytes, numbers and lines into a buffer, each from a place on; the answer is the place behind. Buffer and place stay two
// parameters: the contracts say what each call wrote and where it ended, which a struct of both would only repeat.
ghost use Rattle.std.specs.Prelude.{◌≡◌, ◌∷◌, ◌+◌, ◌*◌, ◌≤◌, length};
ghost use Rattle.layout.specs.Counts.{column_count};
ghost use Rattle.print.specs.Write.{Wrote, digits_most, number_text};
ghost use Rattle.print.specs.Card.{field_most, fields_most, numbers_line_most, fields_text, numbers_text, line_text, line_end};

use blocks::put;

// The bytes of a number and of a comma and a number, at most, and of a line's end.
pub const DIGITS_MOST: usize = 20;

pub const FIELD_MOST: usize = DIGITS_MOST + 1;

pub const END: usize = 2;

pub fn put_block(out: &mut [u8], at: usize, block: &[u8]) -> usize
    requires { at + length block.now ≤ length out.old }
    ensures { Wrote out.old at block.now out.new result }
{
    put(out, at, block);
    at + block.len()
}

// The digits of v, the first ones by the same function.
pub(crate) fn put_number(out: &mut [u8], at: usize, v: u64) -> usize
    requires { at + digits_most ≤ length out.old }
    ensures { Wrote out.old at (number_text v) out.new result }
{
    let last = (v % 10 + 48) as u8;
    if v < 10 {
        out[at] = last;
        return at + 1;
    }
    let next = put_number(out, at, v / 10);
    out[next] = last;
    next + 1
}

// A comma and a number.
pub(crate) fn put_field(out: &mut [u8], at: usize, v: u64) -> usize
    requires { at + field_most ≤ length out.old }
    ensures { Wrote out.old at (44 ∷ number_text v) out.new result }
{
    out[at] = 44;
    put_number(out, at + 1, v)
}

pub(crate) fn put_end(out: &mut [u8], at: usize) -> usize
    requires { at + 2 ≤ length out.old }
    ensures { Wrote out.old at line_end out.new result }
{
    out[at] = 13;
    out[at + 1] = 10;
    at + 2
}

// Numbers, each behind a comma.
pub(crate) fn put_fields(out: &mut [u8], at: usize, values: &[u64]) -> usize
    requires { at + length values.now * field_most ≤ length out.old }
    ensures { Wrote out.old at (fields_text (length values.now) values.now) out.new result }
{
    let mut next = at;
    for v in values {
        next = put_field(out, next, *v);
    }
    next
}

// Numbers, at least one, with commas between, and the end of their line.
pub fn put_numbers(out: &mut [u8], at: usize, values: &[u64]) -> usize
    requires { (at + numbers_line_most (length values.now) ≤ length out.old) × (1 ≤ length values.now) }
    ensures { Wrote out.old at (numbers_text (length values.now) values.now) out.new result }
{
    let begun = put_number(out, at, values[0]);
    let done = put_fields(out, begun, &values[1..]);
    put_end(out, done)
}

// One line of the card.
pub(crate) fn put_line(out: &mut [u8], at: usize, name: &[u8], numbers: &[u64]) -> usize
    requires { (at + length name.now + fields_most + 2 ≤ length out.old) × (length numbers.now ≡ column_count) }
    ensures { Wrote out.old at (line_text name.now numbers.now) out.new result }
{
    let named = put_block(out, at, name);
    let numbered = put_fields(out, named, numbers);
    put_end(out, numbered)
}
