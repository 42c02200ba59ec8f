// The differential card of a transformer, and the verdict on a measured pair [02 §11], [004]. Currents are whole hundredths of the
// rated current, and the slope whole hundredths.
#![tactic(auto)]

ghost use Rattle.std.specs.Prelude.{◌≡◌, ◌≤◌};
ghost use Rattle.differential.specs.Given.{given_for, differential_of};
ghost use Rattle.differential.specs.Gets.{InRange};
ghost use Rattle.differential.specs.Inputs.{first_outside};
ghost use Rattle.differential.specs.Slope.{slope_to, least_slope};
ghost use Rattle.differential.specs.Verdict.{characteristic, both_block, verdict_of, verdict_number};

use answers::{Refusal, numbers};
use grid::{ceil_div, least_on};

// There are so many inputs.
pub const INPUTS: usize = 8;

// The inputs in the order of their places: three settings and the greatest outside fault current; then what was measured, the
// currents of both sides, the differential and the restraint.
#[derive(Clone, Copy)]
pub struct Inputs {
    pub start: u64,
    pub blocking: u64,
    pub cutoff: u64,
    pub through: u64,
    pub first: u64,
    pub second: u64,
    pub differential: u64,
    pub restraint: u64,
}

#[derive(Clone, Copy)]
pub enum Verdict {
    Trip,
    Hold,
    Blocked,
}

// The card, and the verdict on the measured pair. Its bend is always the same.
#[derive(Clone, Copy)]
struct Card {
    pub start: u64,
    pub slope: u64,
    pub blocking: u64,
    pub cutoff: u64,
    pub verdict: Verdict,
}

// What is given back: DONE with the card and the verdict's number, or a refusal with its place and all six 0.
#[derive(Clone, Copy, Default)]
pub struct Given {
    pub number: u64,
    pub place: u64,
    pub start: u64,
    pub bend: u64,
    pub slope: u64,
    pub blocking: u64,
    pub cutoff: u64,
    pub verdict: u64,
}

// The slopes that the relay offers: 0.2, 0.3, .. 0.7.
const SLOPE_FROM: u64 = 20;

const SLOPE_TO: u64 = 70;

const SLOPE_STEP: u64 = 10;

// 1, the rated current; and the restraint up to which the characteristic is the start.
const ONE: u64 = 100;

const BEND: u64 = ONE;

// The first input that is out of its range, from 0: each with the least and the greatest number allowed.
fn first_outside(x: Inputs) -> Option<usize>
    ensures { result ≡ first_outside x }
{
    let inputs = [
        (x.start, 20, 100),
        (x.blocking, 150, 300),
        (x.cutoff, 650, 1200),
        (x.through, 100, 2000),
        (x.first, 0, 10000),
        (x.second, 0, 10000),
        (x.differential, 0, 10000),
        (x.restraint, 0, 10000),
    ];
    inputs.iter().position(|(value, least, greatest)| !(*least..=*greatest).contains(value))
}

// The least slope that fits: of those that the relay offers the next one at or above what is wanted beyond the start, over what the
// outside fault current has above 1.
fn least_slope(start: u64, through: u64) -> Option<u64>
    requires { (start ≤ 100) × (100 ≤ through) × (through ≤ 2000) }
    ensures { result ≡ least_slope start through }
{
    let wanted = 11 * 4 * through;
    let begun = 100 * start;
    if wanted <= begun {
        return least_on(SLOPE_FROM, SLOPE_TO, SLOPE_STEP, 0);
    }
    if through == ONE {
        return None;
    }
    least_on(
        SLOPE_FROM,
        SLOPE_TO,
        SLOPE_STEP,
        ceil_div(wanted - begun, through - ONE),
    )
}

// The characteristic at a restraint, in hundredths of a hundredth.
#[tactic(auto, unfolding(crate::specs::Verdict::characteristic))]
fn characteristic_at(start: u64, slope: u64, restraint: u64) -> u64
    requires { (start ≤ 100) × (slope ≤ slope_to) × (restraint ≤ 10000) }
    ensures { result ≡ characteristic start slope restraint }
{
    if restraint <= BEND {
        return 100 * start;
    }
    100 * start + slope * (restraint - ONE)
}

// Both sides are at or above blocking.
#[tactic(auto, unfolding(crate::specs::Verdict::both_block))]
fn both_block(x: Inputs) -> bool
    ensures { result ≡ both_block x }
{
    x.blocking <= x.first && x.blocking <= x.second
}

#[tactic(auto, unfolding(crate::specs::Verdict::verdict_of))]
fn judge(x: Inputs, slope: u64) -> Verdict
    requires { InRange x × (slope ≤ slope_to) }
    ensures { result ≡ verdict_of x slope }
{
    if x.cutoff <= x.differential {
        Verdict::Trip
    } else if both_block(x) {
        Verdict::Blocked
    } else if characteristic_at(x.start, slope, x.restraint) <= 100 * x.differential {
        Verdict::Trip
    } else {
        Verdict::Hold
    }
}

impl From<Verdict> for u64 {
    ghost from_gives = { λ v n. n ≡ verdict_number v };

    fn from(v: Verdict) -> u64 {
        match v {
            Verdict::Trip => 1,
            Verdict::Hold => 2,
            Verdict::Blocked => 3,
        }
    }
}

// The card and the verdict, or the refusal: INPUT before SLOPE.
#[tactic(auto, unfolding(crate::specs::Given::differential_of, crate::specs::Given::by_input, crate::specs::Given::by_slope))]
fn card_of(x: Inputs) -> Result<Card, Refusal>
    ensures { given_for result ≡ differential_of x }
{
    if let Some(k) = first_outside(x) {
        return Err(Refusal::Input(k as u64 + 1));
    }
    let slope = least_slope(x.start, x.through).ok_or(Refusal::Slope)?;
    Ok(Card {
        start: x.start,
        slope,
        blocking: x.blocking,
        cutoff: x.cutoff,
        verdict: judge(x, slope),
    })
}

impl From<Result<Card, Refusal>> for Given {
    ghost from_gives = { λ card given. given ≡ given_for card };

    fn from(card: Result<Card, Refusal>) -> Given {
        match card {
            Ok(card) => Given {
                number: 0,
                place: 0,
                start: card.start,
                bend: BEND,
                slope: card.slope,
                blocking: card.blocking,
                cutoff: card.cutoff,
                verdict: card.verdict.into(),
            },
            Err(why) => {
                let [number, place, _] = numbers(Err(why));
                Given {
                    number,
                    place,
                    ..Given::default()
                }
            }
        }
    }
}

// The card and the verdict for any eight numbers.
pub fn differential_card(x: Inputs) -> Given
    ensures { result ≡ differential_of x }
{
    card_of(x).into()
}
