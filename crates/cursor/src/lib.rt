// A cursor on a text, and its way past numbers, names, commas and line ends [01 §6].
#![tactic(auto)]

mod alphabet;
mod cells;
mod pieces;

// The bytes that a run is made of: a type and no closure, since the definitions `digits` and `line_length` are runs of a class.
#[derive(Clone, Copy)]
pub enum Class {
    Digit,
    Bare,
    InLine,
}

// A place in the text, and the line that it stands in.
#[derive(Clone, Copy)]
pub struct Cursor {
    pub at: usize,
    pub line: u64,
}

// What a column holds.
#[derive(Clone, Copy)]
pub enum Column {
    Numbers,
    Names,
}

// Where a name stands in the text, its quotes with it.
#[derive(Clone, Copy)]
pub struct Place {
    pub start: usize,
    pub size: usize,
}

// A cell: a number's value, or a name's place.
#[derive(Clone, Copy)]
pub enum Cell {
    Number(u64),
    Name(Place),
}
