// Currents from the study package [01 §5]: two readings, each a single, turned into whole milliamperes (mA), with both sides of each [02 §9].
#![tactic(auto)]

ghost use Rattle.std.specs.Prelude.{◌≡◌, T};
ghost use Rattle.study.specs.Currents.{rated_fits, reading_of, given_for, refused_at, convert_of};

use answers::{Refusal, numbers};
use single::{Rounding, Sides, allowed_current, used, whole_current};

// A single in its unit.
#[derive(Clone, Copy)]
pub enum Quantity {
    Amperes(f32),
    Kiloamperes(f32),
    PerUnit(f32),
}

// A quantity with the rated current in mA beside it, which is needed only per unit.
#[derive(Clone, Copy)]
pub struct Reading {
    pub quantity: Quantity,
    pub rated: u64,
}

#[derive(Clone, Copy)]
pub struct Study {
    pub greatest: Reading,
    pub least: Reading,
}

// The sides of both readings, in mA. Of a study that is done, the greatest's upper and the least's lower one are from 1 to 100,000,000; the greatest's
// lower one may be 0, and the least's upper one 100,000,001.
#[derive(Clone, Copy)]
pub struct StudySides {
    pub greatest: Sides,
    pub least: Sides,
}

// The numbers given back [01 §4]: DONE with both currents in mA and the sides of both readings, or STUDY with its place and all of them 0.
#[derive(Clone, Copy)]
pub struct Converted {
    pub number: u64,
    pub place: u64,
    pub greatest: u64,
    pub least: u64,
    pub sides: StudySides,
}

// A reading in whole mA, by its sides. The caller has tested the rated current.
fn reading_current(reading: Reading, to: Rounding) -> Option<Sides>
    requires { T (rated_fits reading) }
    ensures { result ≡ reading_of to reading }
{
    match reading.quantity {
        Quantity::Amperes(x) => whole_current(x, 1000, to),
        Quantity::Kiloamperes(x) => whole_current(x, 1000000, to),
        Quantity::PerUnit(x) => whole_current(x, reading.rated, to),
    }
}

// Whether the rated current, if it is needed, is from 1 to 100,000,000 mA.
fn rated_fits(reading: Reading) -> bool
    ensures { result ≡ rated_fits reading }
{
    match reading.quantity {
        Quantity::Amperes(_) => true,
        Quantity::Kiloamperes(_) => true,
        Quantity::PerUnit(_) => allowed_current(reading.rated),
    }
}

// Number and place, with both currents, the greatest rounded up and the least down, and the sides of both readings.
impl From<Result<StudySides, Refusal>> for Converted {
    ghost from_gives = { λ answer converted. converted ≡ given_for answer };

    fn from(answer: Result<StudySides, Refusal>) -> Converted {
        let [number, place, _] = numbers(answer.map(|_| ()));
        let zero = Sides { lower: 0, upper: 0 };
        let sides = answer.unwrap_or(StudySides {
            greatest: zero,
            least: zero,
        });
        Converted {
            number,
            place,
            greatest: used(sides.greatest, Rounding::Up),
            least: used(sides.least, Rounding::Down),
            sides,
        }
    }
}

// STUDY at a place.
pub fn refused(place: u64) -> Converted
    ensures { result ≡ refused_at place }
{
    Converted::from(Err(Refusal::Study(place)))
}

// The sides of both readings: the rated currents are tested before either reading, and the greatest before the least. A reading is refused
// by the side that is used.
#[tactic(auto, unfolding(crate::specs::Currents::convert_of))]
fn study_sides(s: Study) -> Result<StudySides, Refusal>
    ensures { given_for result ≡ convert_of s }
{
    if !rated_fits(s.greatest) || !rated_fits(s.least) {
        return Err(Refusal::Study(0));
    }
    let greatest = reading_current(s.greatest, Rounding::Up).ok_or(Refusal::Study(1))?;
    let least = reading_current(s.least, Rounding::Down).ok_or(Refusal::Study(2))?;
    Ok(StudySides { greatest, least })
}

// The two currents of a study, the greatest rounded up and the least down, with both sides of each reading [02 §9].
pub fn convert(s: Study) -> Converted
    ensures { result ≡ convert_of s }
{
    study_sides(s).into()
}
