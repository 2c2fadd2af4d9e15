//! Bounds of the sixth root of a half-year's growth, in fixed point with directed rounding: a number
//! `p` stands for `p / 2^b`, where `b` is the precision, 8 to 62 binary places.
//!
//! It promises that the bounds enclose the root and are the nearest ones that its products allow, and that a
//! value is given only if both bounds round to it. Begin with `specs/Roots.antt` and `roots.rt`.
//!
//! It doesn't promise that two bounds give one value: at any precision they may round to different cents.
#![tactic(auto)]

mod amounts;
mod products;
mod roots;
mod search;

pub use amounts::settle;
pub use products::{mul_down, mul_up};
pub use roots::{Root, power_bounds, root_bounds};
