// The answers of section 4, with those of the requests that have landed, and their numbers: DONE is Ok, and every other answer is a refusal.
#![tactic(auto)]

ghost use Rattle.std.specs.Prelude.{◌≡◌};
ghost use Rattle.answers.specs.declared.Reason.TheVariants.{Pickup};
ghost use Rattle.answers.specs.declared.Refusal.TheVariants.{Unsettled};
ghost use Rattle.answers.specs.Answer.{given_by};

// Why no available pickup meets P1 to P4 [02 §2]: none meets P1 and P2; the least that does fails P3; or it fails P4 for the fed
// row of this number.
#[derive(Clone, Copy)]
pub enum Cause {
    Range,
    OwnZone,
    Backup(u64),
}

// Why a row can't be settled: no pickup fits it; the M of the row of this number is at most 1.000 [02 §3]; or no delay or multiplier
// fits it.
#[derive(Clone, Copy)]
pub enum Reason {
    Pickup(Cause),
    Curve(u64),
    Delay,
}

impl From<Cause> for Reason {
    ghost from_gives = { λ why r. r ≡ Pickup why };

    fn from(why: Cause) -> Reason {
        Reason::Pickup(why)
    }
}

// The refusals, each with its place: lines, rows, fields and inputs from 1.
#[derive(Clone, Copy)]
pub enum Refusal {
    Text(u64),
    Count,
    Room,
    Field(u64, u64),
    Tree(u64),
    Unsettled(u64, Reason),
    Study(u64),
    Card(u64),
    Edit,
    Input(u64),
    Slope,
}

// An answer is given in so many numbers: number, place, and what names the place more closely.
pub const NUMBERS: usize = 3;

fn unsettled(row: u64, why: Reason) -> [u64; NUMBERS]
    ensures { result ≡ given_by (Err (Unsettled row why)) }
{
    match why {
        Reason::Pickup(Cause::Range) => [11, row, 0],
        Reason::Pickup(Cause::OwnZone) => [12, row, 0],
        Reason::Pickup(Cause::Backup(fed)) => [13, row, fed],
        Reason::Curve(stalled) => [14, stalled, 0],
        Reason::Delay => [7, row, 0],
    }
}

// A function and no From: neither a Result nor an array is a type of this crate.
pub fn numbers(a: Result<(), Refusal>) -> [u64; NUMBERS]
    ensures { result ≡ given_by a }
{
    match a {
        Ok(()) => [0, 0, 0],
        Err(Refusal::Text(line)) => [1, line, 0],
        Err(Refusal::Count) => [2, 0, 0],
        Err(Refusal::Room) => [3, 0, 0],
        Err(Refusal::Field(row, field)) => [4, row, field],
        Err(Refusal::Tree(row)) => [5, row, 0],
        Err(Refusal::Unsettled(row, why)) => unsettled(row, why),
        Err(Refusal::Study(place)) => [8, place, 0],
        Err(Refusal::Card(row)) => [9, row, 0],
        Err(Refusal::Edit) => [10, 0, 0],
        Err(Refusal::Input(place)) => [16, place, 0],
        Err(Refusal::Slope) => [17, 0, 0],
    }
}
