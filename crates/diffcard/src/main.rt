// The program `diffcard`: reads lines of inputs on standard input and prints for each its differential card and verdict, or its
// refusal [02 §11]. A text that could not be read, or an output that could not be written whole, is said on standard error.
#![tactic(auto)]

ghost use Rattle.std.specs.Prelude.{◌≤◌, length, take, OnOk};
ghost use Rattle.std.specs.Io.KnownBytes.{Appends};
ghost use Rattle.print.specs.Card.{Printed};
ghost use Rattle.diffsheet.specs.Sheet.{diff_most, diff_of};

use console::{read_input, say, write_output};
use diffsheet::{DIFF_MOST, diffsheet};
use std::io;
use std::io::Write;
use text::TEXT_ROOM;

// What was read is the text, and what is printed for it stands at the start of the buffer.
fn print_read(text: &[u8], size: usize, out: &mut [u8]) -> usize
    requires { (size ≤ length text.now) × (diff_most ≤ length out.old) }
    ensures { Printed out.old (diff_of (take size text.now)) out.new result }
{
    diffsheet(&text[..size], out)
}

// What is printed for the text is written whole. The buffer is an array by its type, since the check can't compute with its zeros.
fn write_printed<W: Write>(
    sink: &mut W,
    text: &[u8],
    size: usize,
    out: &mut [u8; DIFF_MOST],
) -> io::Result<()>
    requires { size ≤ length text.now }
    ensures { OnOk result (Appends (W.contents sink.old) (W.contents sink.new) (diff_of (take size text.now))) }
{
    let bytes = print_read(text, size, out);
    write_output(sink, &out[..bytes])
}

// As in `card`: one function for both would take the streams, the buffers, what prints and the messages, and be no shorter than this.
fn main(rt: HostRuntime) {
    let mut text = [0u8; TEXT_ROOM];
    let Ok(size) = read_input(&mut rt.stdin(), &mut text) else {
        say(
            &mut rt.stderr(),
            b"diffcard: standard input could not be read\n",
        );
        return;
    };
    let mut out = [0u8; DIFF_MOST];
    if write_printed(&mut rt.stdout(), &text, size, &mut out).is_err() {
        say(
            &mut rt.stderr(),
            b"diffcard: standard output could not be written whole\n",
        );
    }
}
