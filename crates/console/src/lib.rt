// What the programs do with their streams: an input read to its end or until the buffer is full, an output written whole, and a message
// that may be lost.
#![tactic(auto)]

ghost use Rattle.std.specs.Prelude.{OnOk};
ghost use Rattle.std.specs.Io.KnownBytes.{Appends};
ghost use Rattle.console.specs.Input.{Held, Taken};

use std::io;
use std::io::{Read, Write};

// Reads until the buffer is full or the input ends; how many bytes then stand at its start.
pub fn read_input<R: Read>(source: &mut R, text: &mut [u8]) -> io::Result<usize>
    ensures held { Held result text.new }
    ensures bytes { Taken (R.remaining source.old) (R.remaining source.new) result text.new }
{
    let mut done = 0;
    // each turn reads what comes, which no `for` counts
    while done < text.len() {
        let more = source.read(&mut text[done..])?;
        if more == 0 {
            return Ok(done);
        }
        done += more;
    }
    Ok(done)
}

// Writes all of the bytes and hands them on. No call of the library's closes a standard stream.
pub fn write_output<W: Write>(sink: &mut W, bytes: &[u8]) -> io::Result<()>
    ensures { OnOk result (Appends (W.contents sink.old) (W.contents sink.new) bytes.now) }
{
    sink.write_all(bytes)?;
    sink.flush()
}

pub fn say<W: Write>(sink: &mut W, message: &[u8]) {
    let _ = sink.write_all(message);
}
