// One single in whole milliamperes [01 §5]: its bits taken apart into sign, exponent and fraction, the number they stand for scaled, and the product
// rounded [02 §4], down and up [02 §9], all by whole numbers. The single nearest 0.1 has the bits 0x3dcc_cccd: sign 0, exponent 123 and fraction
// 5,033,165. In kA it is scaled by 1,000,000: (8,388,608 + 5,033,165) * 1,000,000 / 2 ^ 27, where 8,388,608 is the leading one, 2 ^ 23, and 27 is
// 149 - (123 - 1). That is 100,000.0015 mA, so its sides are 100,000 and 100,001.
#![tactic(auto)]

ghost use Rattle.std.specs.Prelude.{◌≡◌, ◌*◌, ◌^◌, T};
ghost use Rattle.std.specs.Float.{binary32};
ghost use Rattle.std.specs.Float.Ieee.{to_bits};
ghost use Rattle.single.specs.Exact.{sides_of, used};
ghost use Rattle.single.specs.Parts.{parts_of, Scalable, ScaledBy, Roundable};
ghost use Rattle.single.specs.SingleCurrent.{allowed, current_of};

use grid::ceil_div;

// The whole mA on both sides of an exact current: the greatest not above it and the least not below it [02 §9].
#[derive(Clone, Copy)]
pub struct Sides {
    pub lower: u64,
    pub upper: u64,
}

// A value and no closure, as `given-sound`, `given-complete` and what rests on them are over both.
#[derive(Clone, Copy)]
pub enum Rounding {
    Up,
    Down,
}

// A single's 32 bits: one of sign, which is 1 for a minus, eight of exponent and 23 of fraction.
#[derive(Clone, Copy)]
struct Parts {
    pub sign: u64,
    pub exponent: u64,
    pub fraction: u64,
}

// A single times a scale: mantissa * 2 ^ power / 2 ^ 149. 1 / 2 ^ 149 is the smallest positive single.
#[derive(Clone, Copy)]
struct Product {
    pub mantissa: u64,
    pub power: u64,
}

pub fn allowed_current(k: u64) -> bool
    ensures { result ≡ allowed k }
{
    1 <= k && k <= 100000000
}

// The side that is used as the current [01 §5]: rounded up the upper one, rounded down the lower one. The other may lie outside 1 to 100,000,000: it
// may be 0 below a current of 1, or 100,000,001 above one of 100,000,000.
pub fn used(sides: Sides, to: Rounding) -> u64
    ensures { result ≡ used to sides }
{
    match to {
        Rounding::Up => sides.upper,
        Rounding::Down => sides.lower,
    }
}

// Bit 31, bits 30 to 23 and bits 22 to 0: 0x8000_0000 is 2 ^ 31, and 0x80_0000 is 2 ^ 23. Of what is not a number Rattle gives no bits: one
// pattern, with exponent 255, stands for all.
fn parts_of(x: f32) -> Parts
    ensures { result ≡ parts_of (to_bits binary32 x) }
{
    let bits = if x.is_nan() {
        0x7fc0_0000
    } else {
        f32::to_bits(x) as u64
    };
    Parts {
        sign: bits / 0x8000_0000,
        exponent: bits % 0x8000_0000 / 0x80_0000,
        fraction: bits % 0x80_0000,
    }
}

// Without its sign the single is (2 ^ 23 + fraction) * 2 ^ (exponent - 1) / 2 ^ 149, where 2 ^ 23 is a leading one. At exponent 0 it has none, and is
// fraction / 2 ^ 149.
fn scaled(parts: Parts, scale: u64) -> Product
    requires { Scalable parts scale }
    ensures { ScaledBy parts scale result }
{
    if parts.exponent == 0 {
        Product {
            mantissa: parts.fraction * scale,
            power: 0,
        }
    } else {
        Product {
            mantissa: (0x80_0000 + parts.fraction) * scale,
            power: parts.exponent - 1,
        }
    }
}

// The whole numbers on both sides of the product. From power 149 on it is whole already.
fn rounded(product: Product) -> Sides
    requires { Roundable product }
    ensures { result ≡ sides_of (product.mantissa * 2 ^ product.power) (2 ^ 149) }
{
    if 149 <= product.power {
        let whole = product.mantissa << (product.power - 149);
        return Sides {
            lower: whole,
            upper: whole,
        };
    }
    // Below, it is mantissa / 2 ^ (149 - power). The mantissa is below 2 ^ 24 * 2 ^ 27, so over 2 ^ 51 or more it is below 1: 0 rounded down, and 1 up
    // unless it is 0. So 2 ^ 51, at power 98, stands for all of these.
    let den = 1u64 << (149 - product.power.max(98));
    Sides {
        lower: product.mantissa / den,
        upper: ceil_div(product.mantissa, den),
    }
}

// A single times a scale, by the whole mA on both its sides; none where the one that is used is not from 1 to 100,000,000. So is the scale, in
// mA for each unit of the single.
pub fn whole_current(x: f32, scale: u64, to: Rounding) -> Option<Sides>
    requires { T (allowed scale) }
    ensures { result ≡ current_of to x scale }
{
    let parts = parts_of(x);
    // From exponent 154 on it is, but for its sign, 2 ^ 23 * 2 ^ 153 / 2 ^ 149 or more: 134,217,728, too much at every scale. At 255 it is not finite.
    if 154 <= parts.exponent {
        return None;
    }
    // Negative, or minus zero, which counts as zero: neither comes to 1 mA.
    if parts.sign == 1 {
        return None;
    }
    let sides = rounded(scaled(parts, scale));
    allowed_current(used(sides, to)).then_some(sides)
}
