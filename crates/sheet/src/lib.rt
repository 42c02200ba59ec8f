// From the text of a list to the printed card or refusal [01 §6].
#![tactic(auto)]

ghost use Rattle.std.specs.Prelude.{◌≤◌, length};
ghost use Rattle.sheet.specs.Sheet.{sheet_most, refused_with, sheet_of, fitted, Filled};
ghost use Rattle.sheet.specs.Ready.{RowsReady};

use answers::{NUMBERS, Refusal, numbers};
use blocks::put;
use calculate::whole_calculation;
use cursor::Place;
use layout::{CARD, FIELDS, LIST, ROWS};
use list::read_list;
use print::{HEADER, LINE_MOST, print_card, print_refusal};
use text::BadLine;

// A place of no name.
const NOWHERE: Place = Place { start: 0, size: 0 };

// Room for what is printed of the longest list's card.
pub const SHEET_MOST: usize = HEADER + ROWS * LINE_MOST;

// What is given for a text: the answer's numbers, and how many bytes are printed.
#[derive(Clone, Copy)]
pub struct Page {
    pub numbers: [u64; NUMBERS],
    pub bytes: usize,
}

fn refuse(given: [u64; NUMBERS], out: &mut [u8]) -> Page
    requires { sheet_most ≤ length out.old }
    ensures { Filled (refused_with given) out.old result.numbers result.bytes out.new }
{
    let bytes = print_refusal(given, out);
    Page {
        numbers: given,
        bytes,
    }
}

// Prints the card, or the refusal, of n rows that were read.
fn print_rows(text: &[u8], list: &[u64], names: &[Place], n: usize, out: &mut [u8]) -> Page
    requires { RowsReady text.now list.now names.now n (length out.old) }
    ensures { Filled (sheet_of text.now) out.old result.numbers result.bytes out.new }
{
    if ROWS < n {
        return refuse(numbers(Err(Refusal::Count)), out);
    }
    let mut card = [0u64; CARD];
    let end = n * FIELDS;
    let given = whole_calculation(&list[..end], &mut card);
    if given[0] == 0 {
        let bytes = print_card(text, names, &card, n, out);
        return Page {
            numbers: given,
            bytes,
        };
    }
    refuse(given, out)
}

// Prints the card or the refusal of a text into a buffer with room for any.
fn print_text(text: &[u8], out: &mut [u8]) -> Page
    requires { sheet_most ≤ length out.old }
    ensures { Filled (sheet_of text.now) out.old result.numbers result.bytes out.new }
{
    let mut list = [0u64; LIST];
    let mut names = [NOWHERE; ROWS];
    match read_list(text, &mut list, &mut names) {
        Err(BadLine(line)) => refuse(numbers(Err(Refusal::Text(line))), out),
        Ok(n) => print_rows(text, &list, &names, n, out),
    }
}

// The card or the refusal of a text, printed into a lent buffer whole or not at all: a card that does not fit is ROOM.
pub fn sheet(text: &[u8], out: &mut [u8]) -> Page
    ensures { Filled (fitted (length out.old) (sheet_of text.now)) out.old result.numbers result.bytes out.new }
{
    let mut space = [0u8; SHEET_MOST];
    let page = print_text(text, &mut space);
    let given = page.numbers;
    let bytes = page.bytes;
    if bytes <= out.len() {
        put(out, 0, &space[..bytes]);
        return page;
    }
    if given[0] == 0 {
        return Page {
            numbers: numbers(Err(Refusal::Room)),
            bytes: 0,
        };
    }
    Page {
        numbers: given,
        bytes: 0,
    }
}
