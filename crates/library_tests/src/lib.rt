//! Tests of the libraries below the desk, and of the counter over a keeper in memory, by their public calls alone.
//! A crate with tests is proved twice, and each such crate pays for all that it links, so the tests of all of them
//! are here.
#![tactic(auto)]

#[cfg(test)]
mod calculator;
#[cfg(test)]
mod calls;
#[cfg(test)]
mod comparing;
#[cfg(test)]
mod counter;
#[cfg(test)]
mod device;
#[cfg(test)]
mod files;
#[cfg(test)]
mod framing;
#[cfg(test)]
mod memory;
#[cfg(test)]
mod roots;
#[cfg(test)]
mod texts;
#[cfg(test)]
mod units;
#[cfg(test)]
mod value;
#[cfg(test)]
mod wire;
