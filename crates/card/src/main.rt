// The program `card`: reads the text of a list on standard input and prints its settings card, or the refusal [01 §6].
// A list that could not be read, or a card that could not be written whole, is said on standard error.
#![tactic(auto)]

ghost use Rattle.std.specs.Prelude.{◌≤◌, length, take};
ghost use Rattle.print.specs.Card.{Printed};
ghost use Rattle.sheet.specs.Sheet.{sheet_most, sheet_of};

use console::{read_input, say, write_output};
use sheet::{SHEET_MOST, sheet};
use text::TEXT_ROOM;

// What was read is the text, and its sheet stands at the start of the buffer.
fn print_read(text: &[u8], size: usize, out: &mut [u8]) -> usize
    requires { (size ≤ length text.now) × (sheet_most ≤ length out.old) }
    ensures { Printed out.old (sheet_of (take size text.now)).text out.new result }
{
    let page = sheet(&text[..size], out);
    page.bytes
}

// As in `diffcard`: one function for both would take the streams, the buffers, what prints and the messages, and be no shorter than this.
fn main(rt: HostRuntime) {
    let mut text = [0u8; TEXT_ROOM];
    let Ok(size) = read_input(&mut rt.stdin(), &mut text) else {
        say(
            &mut rt.stderr(),
            b"card: standard input could not be read\n",
        );
        return;
    };
    let mut out = [0u8; SHEET_MOST];
    let bytes = print_read(&text, size, &mut out);
    if write_output(&mut rt.stdout(), &out[..bytes]).is_err() {
        say(
            &mut rt.stderr(),
            b"card: standard output could not be written whole\n",
        );
    }
}
