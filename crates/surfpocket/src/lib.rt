// The C boundary: the functions of include/surfpocket.h. Each calls one proved entry and hands its numbers on.
#![tactic(auto)]

ghost use Rattle.std.specs.Prelude.{◌≡◌, length};
ghost use Rattle.change.specs.Replace.{replaced};
ghost use Rattle.sheet.specs.Sheet.{sheet_of, fitted, Filled};
ghost use Rattle.calculate.specs.Whole.{whole};
ghost use Rattle.calculate.specs.Ready.{Gave};
ghost use Rattle.change.specs.Ready.{Gave as GaveBoth};
ghost use Rattle.surfpocket.specs.Differentials.{handed_card, differential_for};
ghost use Rattle.surfpocket.specs.Studies.{unit_of, handed, study_of};
ghost use Rattle.surfpocket.specs.Times.{may_be_asked, time_asked};
ghost use Rattle.surfpocket.specs.Version.{version};

use answers::NUMBERS;
use calculate::whole_calculation;
use change::replace;
use curve::time_of;
use differential::{Given, Inputs, differential_card};
use sheet::sheet;
use study::{Converted, Quantity, Reading, Study, convert, refused};

#[repr(C)]
#[derive(Clone, Copy)]
pub struct SurfpocketAnswer {
    pub numbers: [u64; NUMBERS],
}

#[repr(C)]
#[derive(Clone, Copy)]
pub struct SurfpocketReplacement {
    pub numbers: [u64; NUMBERS],
    pub rows: u64,
}

#[repr(C)]
#[derive(Clone, Copy)]
pub struct SurfpocketStudy {
    pub number: u64,
    pub place: u64,
    pub greatest: u64,
    pub least: u64,
    pub greatest_lower: u64,
    pub greatest_upper: u64,
    pub least_lower: u64,
    pub least_upper: u64,
}

#[repr(C)]
#[derive(Clone, Copy)]
pub struct SurfpocketDifferential {
    pub number: u64,
    pub place: u64,
    pub start: u64,
    pub bend: u64,
    pub slope: u64,
    pub blocking: u64,
    pub cutoff: u64,
    pub verdict: u64,
}

#[repr(C)]
#[derive(Clone, Copy)]
pub struct SurfpocketPrinted {
    pub numbers: [u64; NUMBERS],
    pub bytes: usize,
}

// It grows with every change of what is lent or given.
const VERSION: u64 = 7;

#[unsafe(no_mangle)]
pub extern "C" fn surfpocket_version() -> u64
    ensures { result ≡ version }
{
    VERSION
}

// The whole calculation [01 §4].
#[unsafe(no_mangle)]
pub extern "C" fn surfpocket_whole(list: &[u64], card: &mut [u64]) -> SurfpocketAnswer
    ensures { Gave (whole list.now card.old) result.numbers card.new }
{
    SurfpocketAnswer {
        numbers: whole_calculation(list, card),
    }
}

// The replacement of one row [01 §4], and how far it went [02 §8].
#[unsafe(no_mangle)]
pub extern "C" fn surfpocket_replace(
    list: &mut [u64],
    card: &mut [u64],
    place: u64,
    row: &[u64],
) -> SurfpocketReplacement
    ensures { GaveBoth (replaced list.old card.old place row.now) result.numbers result.rows
        list.new card.new }
{
    let given = replace(list, card, place, row);
    let numbers = given.numbers;
    SurfpocketReplacement {
        numbers,
        rows: given.rows,
    }
}

// A single in the unit of that number, if there is one. No TryFrom: C hands over two arguments.
fn in_unit(unit: u64, x: f32) -> Option<Quantity>
    ensures { result ≡ unit_of unit x }
{
    match unit {
        1 => Some(Quantity::Amperes(x)),
        2 => Some(Quantity::Kiloamperes(x)),
        3 => Some(Quantity::PerUnit(x)),
        _ => None,
    }
}

impl From<Converted> for SurfpocketStudy {
    ghost from_gives = { λ c s. s ≡ handed c };

    fn from(c: Converted) -> SurfpocketStudy {
        SurfpocketStudy {
            number: c.number,
            place: c.place,
            greatest: c.greatest,
            least: c.least,
            greatest_lower: c.sides.greatest.lower,
            greatest_upper: c.sides.greatest.upper,
            least_lower: c.sides.least.lower,
            least_upper: c.sides.least.upper,
        }
    }
}

// The study's currents [01 §5] with the sides of both readings [02 §9]: each reading by its unit's number, its single and the rated mA beside it.
#[unsafe(no_mangle)]
pub extern "C" fn surfpocket_study(
    greatest_unit: u64,
    greatest: f32,
    greatest_rated: u64,
    least_unit: u64,
    least: f32,
    least_rated: u64,
) -> SurfpocketStudy
    ensures { result ≡ study_of (unit_of greatest_unit greatest) greatest_rated (unit_of least_unit least) least_rated }
{
    let (Some(g), Some(l)) = (in_unit(greatest_unit, greatest), in_unit(least_unit, least)) else {
        return refused(0).into();
    };
    convert(Study {
        greatest: Reading {
            quantity: g,
            rated: greatest_rated,
        },
        least: Reading {
            quantity: l,
            rated: least_rated,
        },
    })
    .into()
}

impl From<Given> for SurfpocketDifferential {
    ghost from_gives = { λ g d. d ≡ handed_card g };

    fn from(g: Given) -> SurfpocketDifferential {
        SurfpocketDifferential {
            number: g.number,
            place: g.place,
            start: g.start,
            bend: g.bend,
            slope: g.slope,
            blocking: g.blocking,
            cutoff: g.cutoff,
            verdict: g.verdict,
        }
    }
}

// The differential card and the verdict on a measured pair [02 §11].
#[unsafe(no_mangle)]
pub extern "C" fn surfpocket_differential(
    start: u64,
    blocking: u64,
    cutoff: u64,
    through: u64,
    first: u64,
    second: u64,
    differential: u64,
    restraint: u64,
) -> SurfpocketDifferential
    ensures { result ≡ differential_for start blocking cutoff through first second differential restraint }
{
    differential_card(Inputs {
        start,
        blocking,
        cutoff,
        through,
        first,
        second,
        differential,
        restraint,
    })
    .into()
}

#[tactic(auto, unfolding(crate::specs::Times::may_be_asked, crate::specs::Times::between))]
fn may_be_asked(law: u64, multiple: u64, multiplier: u64) -> bool
    ensures { result ≡ may_be_asked law multiple multiplier }
{
    (1..=2).contains(&law)
        && (1001..=20000).contains(&multiple)
        && (10..=1500).contains(&multiplier)
}

// The time in ms of curve B (1) or C (2) at a multiple of the pickup and with a multiplier, both in thousandths [02 §3]; 0 where there is none,
// as C has no Option.
#[unsafe(no_mangle)]
pub extern "C" fn surfpocket_time(law: u64, multiple: u64, multiplier: u64) -> u64
    ensures { result ≡ time_asked law multiple multiplier }
{
    if !may_be_asked(law, multiple, multiplier) {
        return 0;
    }
    time_of(law, multiple, multiplier)
}

// From the text of a list to its printed card or refusal [01 §6].
#[unsafe(no_mangle)]
pub extern "C" fn surfpocket_card(text: &[u8], out: &mut [u8]) -> SurfpocketPrinted
    ensures { Filled (fitted (length out.old) (sheet_of text.now)) out.old result.numbers result.bytes out.new }
{
    let page = sheet(text, out);
    let given = page.numbers;
    SurfpocketPrinted {
        numbers: given,
        bytes: page.bytes,
    }
}
