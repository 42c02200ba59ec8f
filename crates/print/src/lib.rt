// Printing the card [01 §6], [02 §3] and a refusal.
#![tactic(auto)]

pub mod write;

ghost use Rattle.std.specs.Prelude.{◌≡◌, length};
ghost use Rattle.std.specs.List.{list_all};
ghost use Rattle.cursor.specs.Names.{name_at_place, names_at};
ghost use Rattle.print.specs.Write.{Wrote};
ghost use Rattle.print.specs.Card.{line_text, rows_text, place_right, printable, RowFits, RowsFit, Printed, card_printed, refusal_printed};

use answers::NUMBERS;
use cursor::Place;
use layout::COLUMNS;
use write::{DIGITS_MOST, END, FIELD_MOST, put_block, put_line, put_numbers};

// A name has at most so many bytes.
const NAME_MOST: usize = 24;

// The bytes of the card's header, and of one line of the card at most.
pub const HEADER: usize = 41;

pub const LINE_MOST: usize = 24 + COLUMNS * FIELD_MOST + END;

// The bytes of a refusal's header, and of a refusal at most.
const REFUSAL_HEADER: usize = 21;

const REFUSAL_MOST: usize = REFUSAL_HEADER + DIGITS_MOST + (NUMBERS - 1) * FIELD_MOST + END;

// The name has at most 24 bytes and stands inside the text.
#[tactic(auto, using(std::proofs::lemmas::Bool::Decides::nat_tests), unfolding(crate::specs::Card::place_right))]
fn place_right(size: usize, place: Place) -> bool
    ensures { result ≡ place_right size place }
{
    place.size <= NAME_MOST && place.start <= size && place.size <= size - place.start
}

fn places_right(size: usize, names: &[Place]) -> bool
    ensures { result ≡ list_all (place_right size) names.now }
{
    names.iter().all(|place| place_right(size, *place))
}

// There is room for n rows, and names and card have them.
#[tactic(auto, using(std::proofs::lemmas::Bool::Decides::nat_tests), unfolding(crate::specs::Card::printable))]
fn can_print(size: usize, names: &[Place], card: usize, n: usize, room: usize) -> bool
    ensures { result ≡ printable size names.now card n room }
{
    HEADER <= room
        && n <= (room - HEADER) / LINE_MOST
        && n <= names.len()
        && n <= card / COLUMNS
        && places_right(size, &names[..n])
}

// The line of a row.
fn put_row(out: &mut [u8], at: usize, text: &[u8], place: Place, numbers: &[u64]) -> usize
    requires { RowFits (length text.now) place (length numbers.now) at (length out.old) }
    ensures { Wrote out.old at (line_text (name_at_place text.now place) numbers.now) out.new result }
{
    let end = place.start + place.size;
    put_line(out, at, &text[place.start..end], numbers)
}

// The lines of n rows.
fn put_rows(
    out: &mut [u8],
    at: usize,
    text: &[u8],
    names: &[Place],
    card: &[u64],
    n: usize,
) -> usize
    requires { RowsFit (length text.now) names.now (length card.now) n at (length out.old) }
    ensures { Wrote out.old at (rows_text (names_at text.now n names.now) card.now) out.new result }
{
    let mut next = at;
    for i in 0..n {
        let from = i * COLUMNS;
        next = put_row(out, next, text, names[i], &card[from..from + COLUMNS]);
    }
    next
}

// The card of n rows: names as they stand in the text, by their places, and the columns' numbers for each.
// Nothing where there is no room for the longest lines, or names or card have no n rows, which is why n stands beside them.
pub fn print_card(text: &[u8], names: &[Place], card: &[u64], n: usize, out: &mut [u8]) -> usize
    ensures { Printed out.old
        (card_printed text.now names.now card.now n (length out.old))
        out.new result }
{
    if !can_print(text.len(), names, card.len(), n, out.len()) {
        return 0;
    }
    let next = put_block(out, 0, b"name,pickup,delay,cutoff,law,multiplier\r\n");
    put_rows(out, next, text, names, card, n)
}

// A refusal's numbers; nothing where the buffer has no room for the longest.
pub fn print_refusal(numbers: [u64; NUMBERS], out: &mut [u8]) -> usize
    ensures { Printed out.old (refusal_printed numbers (length out.old)) out.new result }
{
    if out.len() < REFUSAL_MOST {
        return 0;
    }
    let named = put_block(out, 0, b"refused,place,field\r\n");
    put_numbers(out, named, &numbers)
}
