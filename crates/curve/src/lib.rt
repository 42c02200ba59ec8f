// The law of a row's time [02 §3]: a definite delay, or curve B or C of IEC 60255-151. M and multipliers are in thousandths, times in ms.
#![tactic(auto)]

ghost use Rattle.std.specs.Prelude.{◌≡◌, false, ℕ, ◌≤◌, leb};
ghost use Rattle.curve.specs.Curve.{multiple, stalls, setting_to, setting_from, numerator, denominator, time_of};

use grid::ceil_div;

// M in thousandths, of a current and a pickup in one unit: rounded down, and 20 above 20. 0 where the pickup is 0, and no Option: the theorems
// of times are over every M, and at 0 a curve gives none.
#[tactic(auto, unfolding(crate::specs::Curve::multiple))]
pub fn multiple(x: u64, y: u64) -> u64
    requires { x ≤ 1000000000000000 }
    ensures { result ≡ multiple x y }
{
    (1000 * x).checked_div(y).unwrap_or(0).min(20000)
}

// A curve gives no time at this M. Law and M are plain numbers, as list, card and surfpocket_time have them: `stalls-exactly` and the other
// theorems are over every one, and M's bound stands in clauses.
#[tactic(auto, unfolding(crate::specs::Curve::stalls))]
pub fn stalls(law: u64, m: u64) -> bool
    ensures { result ≡ stalls law m }
{
    law != 0 && m <= 1000
}

// The least and the greatest setting of a law: two functions of one line. One with both numbers as const parameters would say them at each call.
#[tactic(auto, unfolding(crate::specs::Curve::setting_from))]
pub fn setting_from(law: u64) -> u64
    ensures { result ≡ setting_from law }
{
    if law == 0 { 0 } else { 10 }
}

#[tactic(auto, unfolding(crate::specs::Curve::setting_to))]
pub fn setting_to(law: u64) -> u64
    ensures { result ≡ setting_to law }
{
    if law == 0 { 100000 } else { 1500 }
}

// The time of a curve as a fraction of whole numbers, for a setting of 1.
#[tactic(auto, unfolding(crate::specs::Curve::numerator))]
fn numerator(law: u64) -> u64
    requires { law ≡ 0 → ⊥ }
    ensures { result ≡ numerator law }
{
    if law == 1 { 13500 } else { 80000000 }
}

#[tactic(auto, unfolding(crate::specs::Curve::denominator))]
fn denominator(law: u64, m: u64) -> u64
    requires { (m ≤ 20000) × (law ≡ 0 → ⊥) }
    ensures { result ≡ denominator law m }
{
    if m <= 1000 {
        return 0;
    }
    if law == 1 { m - 1000 } else { m * m - 1000000 }
}

// The time in ms at this M with this setting. A definite delay asks no division: most rows have one.
#[tactic(auto, unfolding(crate::specs::Curve::time_of))]
pub fn time_of(law: u64, m: u64, x: u64) -> u64
    requires { (m ≤ 20000) × (x ≤ setting_to law) }
    ensures { result ≡ time_of law m x }
{
    if law == 0 {
        return x;
    }
    ceil_div(numerator(law) * x, denominator(law, m))
}

// The least setting, offered or not, with which the time is at least the wanted one.
pub fn least_setting(law: u64, m: u64, want: u64) -> u64
    requires { (m ≤ 20000) × (want ≤ 100000000) × (stalls law m ≡ false) }
    ensures { (x : ℕ) → leb result x ≡ leb want (time_of law m x) }
{
    if law == 0 {
        return want;
    }
    if want == 0 {
        return 0;
    }
    (want - 1) * denominator(law, m) / numerator(law) + 1
}
