// The two sides of a row's current transformer [02 §1]. A number of one side becomes one of the other here, through the ratio, and
// nowhere else.
#![tactic(auto)]

ghost use Rattle.std.specs.Prelude.{◌≡◌, ℕ, ◌*◌, ◌≤◌, ◌<◌, leb};
ghost use Rattle.sides.specs.Sides.{keyed, scale, in_primary, setting_most, Rated};

use grid::ceil_div;

// A current on the primary side, in fifths of a mA: whole for every ratio, since the rated secondary is 1 or 5 A.
#[derive(Clone, Copy, PartialEq, Eq)]
pub struct Primary(pub u64);

// A current on the relay's side, in mA: the number that is keyed. Where a row has no ratio that is primary mA, and its ratio is 1.
#[derive(Clone, Copy, PartialEq, Eq)]
pub struct Secondary(pub u64);

// The rated primary and the rated secondary in A, 0 in both where a row has no ratio. No Option, and `Rated` no invariant of the type: `scale`
// and the theorems are over the list's two numbers, and `rows` makes ratios that it is yet to test.
#[derive(Clone, Copy)]
pub struct Ratio {
    pub primary: u64,
    pub secondary: u64,
}

// Fifths in a whole.
pub const FIFTHS: u64 = 5;

// The greatest number keyed at a relay: in primary mA, and in secondary mA.
pub const PRIMARY_MOST: u64 = 100000000;

pub const SECONDARY_MOST: u64 = 500000;

// Fifths of a primary mA for one mA at the relay.
#[tactic(auto, unfolding(crate::specs::Sides::scale))]
fn scale(q: Ratio) -> u64
    requires { Rated q }
    ensures { result ≡ scale q }
{
    match (q.primary, q.secondary) {
        (0, _) => FIFTHS,
        (primary, 1) => FIFTHS * primary,
        (primary, _) => primary,
    }
}

// The primary current of a number at the relay. Without a ratio it needs no scale, and most rows have none.
pub fn in_primary(q: Ratio, x: Secondary) -> Primary
    requires { Rated q × (x.0 ≤ setting_most q.primary) }
    ensures { result ≡ in_primary q x }
{
    if q.primary == 0 {
        return Primary(FIFTHS * x.0);
    }
    Primary(x.0 * scale(q))
}

// The least number at the relay whose primary current, d times, is at least n. Without a ratio the sum before the division keeps that case
// apart from the other when it is compiled, so that a constant d leaves no division.
pub fn least_keyed(q: Ratio, n: u64, d: u64) -> Secondary
    requires { Rated q × (n ≤ 1000000000000000000) × (0 < d) × (d ≤ 5000000) }
    ensures { (x : ℕ) → leb result.0 x ≡ leb n (d * (in_primary q (keyed x)).0) }
{
    if q.primary == 0 {
        return Secondary((n + (d * FIFTHS - 1)) / (d * FIFTHS));
    }
    Secondary(ceil_div(n, d * scale(q)))
}
