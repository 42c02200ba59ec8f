// Leaf arithmetic: the least available value of a grid low, low + step, .. up to high.
#![tactic(auto)]

ghost use Rattle.std.specs.Prelude.{◌≡◌, leb};
ghost use Rattle.grid.specs.Grid.{least_on};
ghost use Rattle.grid.specs.Round.{ceil_div};

// n / d rounded up; 0 where d is 0, and no Option: `time_of` and its theorems are over every M, and take it for the time of none.
#[tactic(auto, unfolding(crate::specs::Round::ceil_div))]
pub fn ceil_div(n: u64, d: u64) -> u64
    ensures { result ≡ ceil_div n d }
{
    if d == 0 { 0 } else { n.div_ceil(d) }
}

// The least value of the grid at or above the bound.
pub fn least_on(low: u64, high: u64, step: u64, bound: u64) -> Option<u64>
    ensures { result ≡ least_on low high step (leb bound) }
{
    if step == 0 {
        return None;
    }
    let from = low.max(bound);
    if high < from {
        return None;
    }
    let past = (from - low) % step;
    let up = if past == 0 { 0 } else { step - past };
    if high - from < up {
        None
    } else {
        Some(from + up)
    }
}
