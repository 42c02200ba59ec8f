// The layout of a list and of a card lent as numbers: counts, tables of bounds, rows [01 §2, §4]. Both stay flat, as they are lent across C.
// Rows, fields and columns are counted from 0 here: index i is row number i + 1, index k is field number k + 1.
#![tactic(auto)]

ghost use Rattle.std.specs.Prelude.{◌≡◌, ◌+◌, ◌*◌, ◌<◌, ◌≤◌, length};
ghost use Rattle.layout.specs.Card.{column, card_row_at, column_bounds_to, put_card_row, same_card_row};
ghost use Rattle.layout.specs.Counts.{field_count, column_count};
ghost use Rattle.layout.specs.Fields.{bounds_to, in_bounds};
ghost use Rattle.layout.specs.List.{field, row_at};
ghost use Rattle.layout.specs.Range.{Bounded};

use blocks::put;
use sides::{FIFTHS, Primary, Ratio, Secondary};

// A row of a list has so many fields, a row of a card so many columns, and a list so many rows at most.
pub const FIELDS: usize = 22;

pub const COLUMNS: usize = 5;

pub const ROWS: usize = 256;

// Room for the longest list and for its card.
pub const LIST: usize = ROWS * FIELDS;

pub const CARD: usize = ROWS * COLUMNS;

// The fields by their index; index 0 is the row's own number.
pub const AT_FEEDER: usize = 1;

pub const AT_KIND: usize = 2;

pub const AT_VOLTS: usize = 3;

pub const AT_WORK: usize = 4;

pub const AT_SELFSTART: usize = 5;

pub const AT_RETURN: usize = 6;

pub const AT_FAR: usize = 7;

pub const AT_CLEAR: usize = 8;

pub const AT_NEAR: usize = 9;

pub const AT_FACTOR: usize = 10;

pub const AT_LOW: usize = 11;

pub const AT_HIGH: usize = 12;

pub const AT_STEP: usize = 13;

pub const AT_DEVICE: usize = 14;

pub const AT_FLOOR: usize = 15;

pub const AT_CEILING: usize = 16;

pub const AT_BACKED: usize = 17;

pub const AT_PRIMARY: usize = 18;

pub const AT_SECONDARY: usize = 19;

pub const AT_LAW: usize = 20;

pub const AT_GREATEST: usize = 21;

// The least and the greatest number allowed, field by field [01 §2], [02 §1, §3]; low, high and step go to `most`. Numbers and no pairs:
// `bounds_to` is such a list, and entry k of it is held to the documents by theorems.
pub fn field_bounds(most: u64) -> [u64; 2 * FIELDS]
    ensures { result ≡ bounds_to most }
{
    [
        1, 256, // row
        0, 256, // feeds_from
        1, 3, // kind
        100, 500000, // volts
        1, 100000000, // work
        1000, 10000, // selfstart
        800, 1000, // return
        1, 100000000, // far
        1, 100000000, // clear
        1, 100000000, // near
        1000, 2000, // factor
        1, most, // low
        1, most, // high
        1, most, // step
        1, 3, // device
        0, 100000, // floor
        0, 100000, // ceiling
        0, 1, // backed
        0, 20000, // rated_primary
        0, 5, // rated_secondary
        0, 2, // law
        1, 100000000, // near_greatest
    ]
}

// The same of a lent card, column by column [01 §4, 9 CARD]; pickup and cutoff go to `most`.
pub fn column_bounds(most: u64) -> [u64; 2 * COLUMNS]
    ensures { result ≡ column_bounds_to most }
{
    [1, most, 0, 100000, 0, most, 0, 2, 0, 1500]
}

// A number against entry k of such a table.
pub fn in_bounds(table: &[u64], k: usize, x: u64) -> bool
    requires { 2 * k + 1 < length table.now }
    ensures { result ≡ in_bounds table.now k x }
{
    if x < table[2 * k] {
        return false; // below the least
    }
    x <= table[2 * k + 1]
}

// What the conditions read of a row: fields 2 to 22, in the list's order [01 §2], [02 §1, §3]. Low, high and step are as
// they are keyed: secondary mA where the row has a ratio, primary mA where not. Other currents are primary. Kind, device, backed and law are
// the list's numbers and no enums, and no ghost field says `Bounded`: `row_at`, the conditions and the theorems are over any list, in range
// or not.
#[derive(Clone, Copy)]
pub struct Row {
    pub feeder: u64,
    pub kind: u64,
    pub volts: u64,
    pub work: Primary,
    pub selfstart: u64,
    pub returnfactor: u64,
    pub far: Primary,
    pub clear: Primary,
    pub near: Primary,
    pub factor: u64,
    pub low: Secondary,
    pub high: Secondary,
    pub step: Secondary,
    pub device: u64,
    pub floor: u64,
    pub ceiling: u64,
    pub backed: u64,
    pub ratio: Ratio,
    pub law: u64,
    pub greatest: Primary,
}

// A field, as a column below: a function for both would be told its width at each of 16 calls.
pub fn field_at(list: &[u64], i: usize, k: usize) -> u64
    requires { i * field_count + k < length list.now }
    ensures { result ≡ field list.now i k }
{
    list[i * FIELDS + k]
}

// Here and of a card row: no From, as a row is read from a list at an index.
pub fn row_at(list: &[u64], i: usize) -> Row
    requires { (i * field_count + field_count ≤ length list.now) × Bounded (row_at list.now i) }
    ensures { result ≡ row_at list.now i }
{
    let at = i * FIELDS;
    Row {
        feeder: list[at + AT_FEEDER],
        kind: list[at + AT_KIND],
        volts: list[at + AT_VOLTS],
        work: Primary(FIFTHS * list[at + AT_WORK]),
        selfstart: list[at + AT_SELFSTART],
        returnfactor: list[at + AT_RETURN],
        far: Primary(FIFTHS * list[at + AT_FAR]),
        clear: Primary(FIFTHS * list[at + AT_CLEAR]),
        near: Primary(FIFTHS * list[at + AT_NEAR]),
        factor: list[at + AT_FACTOR],
        low: Secondary(list[at + AT_LOW]),
        high: Secondary(list[at + AT_HIGH]),
        step: Secondary(list[at + AT_STEP]),
        device: list[at + AT_DEVICE],
        floor: list[at + AT_FLOOR],
        ceiling: list[at + AT_CEILING],
        backed: list[at + AT_BACKED],
        ratio: Ratio {
            primary: list[at + AT_PRIMARY],
            secondary: list[at + AT_SECONDARY],
        },
        law: list[at + AT_LAW],
        greatest: Primary(FIFTHS * list[at + AT_GREATEST]),
    }
}

// A card row's columns, in the card's order; the currents as they are keyed: secondary mA where the row has a ratio, primary mA where not.
// The law is the card's number: a lent card is read before it is tested.
#[derive(Clone, Copy, PartialEq, Eq)]
pub struct CardRow {
    pub pickup: Secondary,
    pub delay: u64,
    pub cutoff: Secondary,
    pub law: u64,
    pub multiplier: u64,
}

pub fn column_at(card: &[u64], i: usize, k: usize) -> u64
    requires { i * column_count + k < length card.now }
    ensures { result ≡ column card.now i k }
{
    card[i * COLUMNS + k]
}

pub fn card_row_at(card: &[u64], i: usize) -> CardRow
    requires { i * column_count + column_count ≤ length card.now }
    ensures { result ≡ card_row_at card.now i }
{
    let at = i * COLUMNS;
    CardRow {
        pickup: Secondary(card[at + 0]),
        delay: card[at + 1],
        cutoff: Secondary(card[at + 2]),
        law: card[at + 3],
        multiplier: card[at + 4],
    }
}

pub fn put_card_row(card: &mut [u64], i: usize, k: CardRow)
    requires { i * column_count + column_count ≤ length card.old }
    ensures { card.new ≡ put_card_row card.old i k }
{
    let columns = [k.pickup.0, k.delay, k.cutoff.0, k.law, k.multiplier];
    put(card, i * COLUMNS, &columns);
}

// Equal in every column.
pub fn same_card_row(a: CardRow, b: CardRow) -> bool
    ensures { result ≡ same_card_row a b }
{
    a == b
}
