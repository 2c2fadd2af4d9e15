//! The bounds of the growth over 1 to 5 months, computed once for a root.

ghost use Rattle.std.specs.Prelude.{◌≡◌, ◌+◌, ◌-◌, ◌*◌, ◌^◌, ◌≤◌};
ghost use Rattle.ee_roots.specs.Products.{power_down, power_up};

use ee_roots::{Root, power_bounds};
use ee_units::Bits;
use std::marker::Model;

/// A root's bounds, and those of the growth over 1 to 5 months. Only `Powers::of` makes them.
#[derive(Drop)]
pub struct Powers {
    root: Root,
    lows: [u128; 5],
    highs: [u128; 5],
}

impl Model for Powers {
    ghost use Rattle.std.specs.Prelude.{◌≡◌, ◌<◌, ℕ, map};
    ghost use Rattle.std.specs.List.{range_with_len};
    ghost use Rattle.ee_roots.specs.Roots.{Bounds};
    ghost use Rattle.ee_roots.specs.Products.{power_down, power_up};
    ghost use Rattle.ee_value.specs.Inner.Open.{AreNear};

    ghost Value = { Bounds };

    ghost view = { λ p. p.root };

    ghost invariant = { λ p. (p.lows ≡ map (power_down p.root.bits p.root.low) (range_with_len 0 5))
        × (p.highs ≡ map (power_up p.root.bits p.root.high) (range_with_len 0 5))
        × ((k : ℕ) → k < 5 → AreNear p.root.bits (power_down p.root.bits p.root.low k) (power_up p.root.bits p.root.high k)) };
}

impl Powers {
    /// The bounds of a root's powers.
    pub fn of(root: Root) -> Powers
        ensures { result ≡ root }
    {
        let one = power_bounds(&root, 1);
        let two = power_bounds(&root, 2);
        let three = power_bounds(&root, 3);
        let four = power_bounds(&root, 4);
        let five = power_bounds(&root, 5);
        Powers {
            root,
            lows: [one.0, two.0, three.0, four.0, five.0],
            highs: [one.1, two.1, three.1, four.1, five.1],
        }
    }

    /// The precision.
    pub fn bits(&self) -> Bits
        ensures value { result ≡ self.now.bits }
        ensures precise { 8 ≤ self.now.bits }
        ensures fits { self.now.bits ≤ 62 }
    {
        self.root.bits()
    }

    /// The root.
    pub fn root(&self) -> &Root
        ensures { result.now ≡ self.now }
    {
        &self.root
    }

    /// The bounds of the growth over 1 to 5 months.
    pub fn at(&self, months: u8) -> (u128, u128)
        requires some { 1 ≤ months }
        requires few { months ≤ 5 }
        ensures low { result.0 ≡ power_down self.now.bits self.now.low (months - 1) }
        ensures high { result.1 ≡ power_up self.now.bits self.now.high (months - 1) }
        ensures order { result.0 ≤ result.1 }
        ensures narrow { result.1 ≤ result.0 + 32 }
        ensures near_one { 32 * result.1 ≤ 43 * 2 ^ self.now.bits }
    {
        let place = usize::from(months - 1);
        (self.lows[place], self.highs[place])
    }
}
