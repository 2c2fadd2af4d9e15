//! Tests over stores, by public calls alone: the same days over tables and over a keeper in memory; devices and files
//! that fail or stop, and refused memory; tables and stores of version 1; and whole command lines. The texts of the
//! talks were worked out by hand from the rules, and none of them was taken from the output of the code.
#![tactic(auto)]

#[cfg(test)]
mod answering;
#[cfg(test)]
mod changed;
#[cfg(test)]
mod command_clients;
#[cfg(test)]
mod command_files;
#[cfg(test)]
mod command_lines;
#[cfg(test)]
mod command_stops;
#[cfg(test)]
mod commands;
#[cfg(test)]
mod comparing;
#[cfg(test)]
mod days;
#[cfg(test)]
mod devices;
#[cfg(test)]
mod failing;
#[cfg(test)]
mod faults;
#[cfg(test)]
mod five_requests;
#[cfg(test)]
mod imports;
#[cfg(test)]
mod lists;
#[cfg(test)]
mod memory_and_tables;
#[cfg(test)]
mod paths;
#[cfg(test)]
mod random_bytes;
#[cfg(test)]
mod refusals;
#[cfg(test)]
mod refused;
#[cfg(test)]
mod stops;
#[cfg(test)]
mod stores;
#[cfg(test)]
mod tables;
#[cfg(test)]
mod talk;
#[cfg(test)]
mod version_1;
#[cfg(test)]
mod version_1_bytes;
#[cfg(test)]
mod version_1_files;
#[cfg(test)]
mod version_1_many_replies;
#[cfg(test)]
mod version_1_stops;
