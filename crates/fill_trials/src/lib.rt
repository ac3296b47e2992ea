//! Trials of filling, of the table store and of the inside of a group. Each expected answer was worked out from the rules by
//! hand or by a program that shares no code with the reader.
#![tactic(auto)]

#[cfg(test)]
mod filled;
#[cfg(test)]
mod groups;
#[cfg(test)]
mod split_lines;
