//! Tests of the counter over a keeper in memory, by public calls alone. The expected texts were worked out by hand
//! from the rules, and none of them was taken from the output of the code.

mod books;
mod calls;
mod devices;
mod lines;
mod streams;
