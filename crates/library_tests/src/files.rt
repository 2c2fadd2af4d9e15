//! Files as the rules and spreadsheets write them, good and broken, over readers and writers that fail. The
//! expected rows come from the rules for files, not from this crate.

mod faulty;
mod samples;
mod written;
