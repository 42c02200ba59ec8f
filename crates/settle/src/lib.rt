// Section 3 of the scope: one row's least settings, in two stages [02 §3]. The pickup comes from its fields and what the rows that it
// feeds ask of it, in three numbers; its delay or multiplier then from going through those rows (times).
#![tactic(auto)]

mod times;

ghost use Rattle.std.specs.Prelude.{◌≡◌, ℕ, ◌≤◌, ◌<◌, leb};
ghost use Rattle.grid.specs.Grid.{least_on};
ghost use Rattle.layout.specs.Card.{card_row_at};
ghost use Rattle.layout.specs.List.{rows};
ghost use Rattle.layout.specs.Range.{Bounded};
ghost use Rattle.layout.specs.View.{view_of};
ghost use Rattle.sides.specs.Sides.{keyed, setting_most};
ghost use Rattle.answers.specs.declared.Reason.TheVariants.{Curve};
ghost use Rattle.settle.specs.Conditions.{primary_of, sees_own_zone, backs_up, stays_clear, sees_near};
ghost use Rattle.settle.specs.Fed.{lower_by, backs_up_all, unbacked_by, picked_by, settled_by, shortfall, asked};
ghost use Rattle.settle.specs.Fed.{PrimaryBounded, FedBounded, CardBounded};
ghost use Rattle.settle.specs.Ready.{Listed, FedReady};
ghost use Rattle.settle.specs.Settle.{unbacked, first_unbacked, judged, cutoff_of, printed, shown};

use answers::{Cause, Reason};
use feeding::FeedingTree;
use grid::least_on;
use layout::{CardRow, FIELDS, Row, row_at};
use sides::{Primary, Secondary, in_primary, least_keyed};
use times::time_row;

// The cutoff is fitted at a stated pickup or not fitted [01 §3]: "a row's outcome struct holds an enum: fitted with its pickup, or not".
#[derive(Clone, Copy)]
pub enum Cutoff {
    Fitted(Secondary),
    NotFitted,
}

// A row's outcome. The setting is its delay, or the multiplier of its curve. The law is the row's number, as `Row` has it.
#[derive(Clone, Copy)]
pub struct Outcome {
    pub pickup: Secondary,
    pub law: u64,
    pub setting: u64,
    pub cutoff: Cutoff,
}

// The M of the row of this number is at most 1.000.
#[derive(Clone, Copy)]
pub struct Stalled(pub u64);

impl From<Stalled> for Reason {
    ghost from_gives = { λ s why. why ≡ Curve s.0 };

    fn from(s: Stalled) -> Reason {
        Reason::Curve(s.0)
    }
}

// What the rows that a row feeds ask of its pickup: the sum of their loads, and over them the greatest excess of a pickup over its
// own load and shortfall of backup. All are primary currents, in fifths of a mA, times volts. No ghost field bounds them: `asked` and `joined`
// are of any rows.
#[derive(Clone, Copy)]
pub struct Fed {
    pub load: u64,
    pub excess: u64,
    pub shortfall: u64,
}

// What no fed row asks.
pub const NOTHING: Fed = Fed {
    load: 0,
    excess: 0,
    shortfall: 0,
};

// 1.2 times the greatest product of a primary current, in fifths of a mA, and volts that a list in range holds.
pub const REACH: u64 = 300000000000000;

// The least pickup that P1 and P2 allow, available or not.
fn pickup_from(r: Row, f: Fed) -> Secondary
    requires { Bounded r × FedBounded f }
    ensures { (x : ℕ) → leb result.0 x ≡ lower_by r f (primary_of r (keyed x)) }
{
    let q = r.ratio;
    let returns = least_keyed(q, 11 * r.selfstart * r.work.0, 10 * r.returnfactor);
    let asked = (f.excess + f.load).saturating_sub(REACH);
    let clears = least_keyed(q, 11 * asked, 10 * r.volts);
    Secondary(returns.0.max(clears.0))
}

// The least pickup that the relay offers from a bound on.
fn least_offered(r: Row, from: Secondary) -> Option<u64>
    ensures { result ≡ least_on r.low.0 r.high.0 r.step.0 (leb from.0) }
{
    least_on(r.low.0, r.high.0, r.step.0, from.0)
}

// P3 of a pickup.
fn sees_own_zone(r: Row, x: Primary) -> bool
    requires { Bounded r × PrimaryBounded x }
    ensures { result ≡ sees_own_zone r x }
{
    15 * x.0 <= 10 * r.far.0
}

// P4 of a pickup, for all fed rows at once.
fn backs_up_all(r: Row, f: Fed, x: Primary) -> bool
    requires { Bounded r × FedBounded f × PrimaryBounded x }
    ensures { result ≡ backs_up_all r f x }
{
    12 * x.0 * r.volts <= 10 * (REACH - f.shortfall)
}

// P4 of a pickup, for one fed row.
fn backs_up(r: Row, f: Row, x: Primary) -> bool
    requires { Bounded r × Bounded f × PrimaryBounded x }
    ensures { result ≡ backs_up r f x }
{
    if f.backed != 1 {
        return true;
    }
    12 * x.0 * r.volts <= 10 * f.far.0 * f.volts
}

// List, i and r go together and are no struct: `Listed` holds the either-or of a rated secondary, which a ghost field takes truncated alone,
// and the proofs need it whole.

// Row j is fed by row i, whose fields are r, and pickup x of that row fails P4 for it.
fn is_unbacked(list: &[u64], i: usize, r: Row, x: Primary, j: usize) -> bool
    requires { Listed list.now i r × PrimaryBounded x × (j < rows list.now) }
    ensures { result ≡ unbacked (view_of list.now) i r x j }
{
    let f = row_at(list, j);
    if f.feeder != (i as u64) + 1 {
        return false;
    }
    !backs_up(r, f, x)
}

// The first such row.
fn first_unbacked(list: &[u64], i: usize, r: Row, x: Primary) -> Option<usize>
    requires { Listed list.now i r × PrimaryBounded x }
    ensures { result ≡ first_unbacked (view_of list.now) i r x }
{
    let n = list.len() / FIELDS;
    for j in 0..n {
        if is_unbacked(list, i, r, x, j) {
            return Some(j);
        }
    }
    None
}

// P3, then P4, of a pickup that meets P1 and P2. The fed rows are gone through only where their numbers say that P4 fails for one of
// them, and then one is found: the row is refused.
fn judge(list: &[u64], i: usize, r: Row, f: Fed, x: Secondary) -> Result<Secondary, Cause>
    requires { Listed list.now i r × FedBounded f × (x.0 ≤ setting_most r.ratio.primary) }
    ensures { result ≡ judged r x (unbacked_by (view_of list.now) i r f (primary_of r x)) }
{
    let pickup = in_primary(r.ratio, x);
    if !sees_own_zone(r, pickup) {
        return Err(Cause::OwnZone);
    }
    if backs_up_all(r, f, pickup) {
        return Ok(x);
    }
    match first_unbacked(list, i, r, pickup) {
        Some(j) => Err(Cause::Backup((j as u64) + 1)),
        None => Ok(x),
    }
}

// The least available pickup that meets P1 and P2, if it meets P3 and P4; else the cause.
fn pick(list: &[u64], i: usize, r: Row, f: Fed) -> Result<Secondary, Cause>
    requires { Listed list.now i r × FedBounded f }
    ensures { result ≡ picked_by (view_of list.now) i r f }
{
    match least_offered(r, pickup_from(r, f)) {
        None => Err(Cause::Range),
        Some(x) => judge(list, i, r, f, Secondary(x)),
    }
}

// A cutoff's sensitivity at its pickup.
fn sees_near(r: Row, x: Primary) -> bool
    requires { Bounded r × PrimaryBounded x }
    ensures { result ≡ sees_near r x }
{
    let factor = if r.kind == 1 { 12 } else { 20 };
    factor * x.0 <= 10 * r.near.0
}

// The least cutoff pickup that stays clear, available or not.
fn cutoff_from(r: Row) -> Secondary
    requires { Bounded r }
    ensures { (x : ℕ) → leb result.0 x ≡ stays_clear r (primary_of r (keyed x)) }
{
    least_keyed(r.ratio, r.factor * r.clear.0, 1000)
}

fn cutoff_at(r: Row) -> Cutoff
    requires { Bounded r }
    ensures { result ≡ cutoff_of r }
{
    match least_offered(r, cutoff_from(r)) {
        Some(x) => if sees_near(r, in_primary(r.ratio, Secondary(x))) {
            Cutoff::Fitted(Secondary(x))
        } else {
            Cutoff::NotFitted
        },
        None => Cutoff::NotFitted,
    }
}

// The least settings of row i, whose fields are r, or the refusal: RANGE, OWN ZONE or BACKUP before CURVE, and CURVE before DELAY.
pub fn settle(tree: FeedingTree, card: &[u64], i: usize, r: Row, f: Fed) -> Result<Outcome, Reason>
    requires { Listed tree.list.now i r × FedBounded f × FedReady tree.list.now card.now i }
    ensures { result ≡ settled_by (view_of tree.entry.list.now) (card_row_at card.now) i r f }
{
    let pickup = pick(tree.list, i, r, f)?;
    let setting = time_row(tree, card, i, r, in_primary(r.ratio, pickup))?;
    Ok(Outcome {
        pickup,
        law: r.law,
        setting,
        cutoff: cutoff_at(r),
    })
}

// The number that the card shows for a cutoff.
impl From<Cutoff> for Secondary {
    ghost from_gives = { λ c x. x ≡ printed c };

    #[tactic(auto, unfolding(crate::specs::Settle::printed))]
    fn from(c: Cutoff) -> Secondary {
        match c {
            Cutoff::Fitted(x) => x,
            Cutoff::NotFitted => Secondary(0),
        }
    }
}

// The card row that shows an outcome.
impl From<Outcome> for CardRow {
    ghost from_gives = { λ o k. k ≡ shown o };

    fn from(o: Outcome) -> CardRow {
        let pickup = o.pickup;
        let cutoff = Secondary::from(o.cutoff);
        if o.law == 0 {
            return CardRow {
                pickup,
                delay: o.setting,
                cutoff,
                law: 0,
                multiplier: 0,
            };
        }
        CardRow {
            pickup,
            delay: 0,
            cutoff,
            law: o.law,
            multiplier: o.setting,
        }
    }
}

fn shortfall_of(r: Row) -> u64
    requires { Bounded r }
    ensures { result ≡ shortfall r }
{
    if r.backed == 1 {
        REACH - r.far.0 * r.volts
    } else {
        0
    }
}

// What a settled row asks of the pickup of the row that feeds it.
pub fn asks(f: Row, s: CardRow) -> Fed
    requires { Bounded f × CardBounded f s }
    ensures { result ≡ asked f s }
{
    let load = f.work.0 * f.volts;
    let pickup = in_primary(f.ratio, s.pickup);
    let excess = pickup.0 * f.volts + (REACH - load);
    let shortfall = shortfall_of(f);
    Fed {
        load,
        excess,
        shortfall,
    }
}
