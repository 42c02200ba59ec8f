// From a text of lines of inputs to a printed line for each, or a refusal of the text [02 §11, 01 §6].
#![tactic(auto)]

ghost use Rattle.std.specs.Prelude.{◌++◌, ◌≡◌, ◌+◌, ◌*◌, ◌≤◌, length};
ghost use Rattle.differential.specs.Inputs.{input_count};
ghost use Rattle.print.specs.Card.{Printed};
ghost use Rattle.print.specs.Write.{Wrote};
ghost use Rattle.diffsheet.specs.Lines.{InputsTaken};
ghost use Rattle.diffsheet.specs.Sheet.{line_most, output_header, output_size, inputs_at, line_given, lines_from, diff_printed};

use answers::{Refusal, numbers};
use cursor::Cursor;
use differential::{Given, INPUTS, Inputs, differential_card};
use print::print_refusal;
use print::write::{DIGITS_MOST, END, FIELD_MOST, put_block, put_numbers};
use text::{BadLine, Columns, TEXT_MOST, read_text};

// The bytes of the text's header, of a line of it at least (a digit for each input, commas between them, CRLF), and so the most lines.
const INPUT_HEADER: usize = 75;

const INPUT_LEAST: usize = 2 * INPUTS + 1;

const LINES: usize = (TEXT_MOST - INPUT_HEADER) / INPUT_LEAST;

// The numbers given for a line, and the bytes of its printed line at most.
const GIVEN: usize = 8;

const LINE_MOST: usize = DIGITS_MOST + (GIVEN - 1) * FIELD_MOST + END;

// The bytes of the printed header, and room for what is printed of any text.
const HEADER: usize = 55;

pub const DIFF_MOST: usize = HEADER + LINES * LINE_MOST;

// The inputs of every line, as far as there is room; how many lines, or the first bad one.
fn read_inputs(text: &[u8], inputs: &mut [u64]) -> Result<usize, BadLine>
    ensures { InputsTaken text.now inputs.old inputs.new result }
{
    let columns = Columns {
        before: INPUTS,
        named: false,
        after: 0,
    };
    read_text(
        text,
        Cursor { at: 0, line: 1 },
        b"start,blocking,cutoff,through,first_side,second_side,differential,restraint",
        columns,
        inputs,
        &mut [],
    )
}

// The inputs of line i. No `From`: the type is another crate's.
fn inputs_at(inputs: &[u64], i: usize) -> Inputs
    requires { i * input_count + input_count ≤ length inputs.now }
    ensures { result ≡ inputs_at inputs.now i }
{
    let at = i * INPUTS;
    Inputs {
        start: inputs[at + 0],
        blocking: inputs[at + 1],
        cutoff: inputs[at + 2],
        through: inputs[at + 3],
        first: inputs[at + 4],
        second: inputs[at + 5],
        differential: inputs[at + 6],
        restraint: inputs[at + 7],
    }
}

// The line of what is given. No `From` of a `Given` either: both types are other crates'.
fn put_given(out: &mut [u8], at: usize, g: Given) -> usize
    requires { at + line_most ≤ length out.old }
    ensures { Wrote out.old at (line_given g) out.new result }
{
    let given = [
        g.number, g.place, g.start, g.bend, g.slope, g.blocking, g.cutoff, g.verdict,
    ];
    put_numbers(out, at, &given)
}

// A line for each of n lines of inputs.
fn put_lines(out: &mut [u8], at: usize, inputs: &[u64], n: usize) -> usize
    requires { (at + n * line_most ≤ length out.old) × (n * input_count ≤ length inputs.now) }
    ensures { Wrote out.old at (lines_from n inputs.now) out.new result }
{
    let mut next = at;
    for i in 0..n {
        next = put_given(out, next, differential_card(inputs_at(inputs, i)));
    }
    next
}

// The header, and those lines.
fn print_lines(inputs: &[u64], n: usize, out: &mut [u8]) -> usize
    requires { (output_size + n * line_most ≤ length out.old) × (n * input_count ≤ length inputs.now) }
    ensures { Printed out.old (output_header ++ lines_from n inputs.now) out.new result }
{
    let next = put_block(
        out,
        0,
        b"number,place,start,bend,slope,blocking,cutoff,verdict\r\n",
    );
    put_lines(out, next, inputs, n)
}

// What is printed for a text; nothing where the buffer has no room for the longest.
pub fn diffsheet(text: &[u8], out: &mut [u8]) -> usize
    ensures { Printed out.old (diff_printed text.now (length out.old)) out.new result }
{
    if out.len() < DIFF_MOST {
        return 0;
    }
    let mut inputs = [0u64; LINES * INPUTS];
    match read_inputs(text, &mut inputs) {
        Err(BadLine(line)) => print_refusal(numbers(Err(Refusal::Text(line))), out),
        Ok(n) => print_lines(&inputs, n, out),
    }
}
