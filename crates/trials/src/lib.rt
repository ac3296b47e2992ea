//! Trials of the whole reader on examples. Each expected answer was worked out from the rules by hand or by a program that
//! shares no code with the reader.
#![tactic(auto)]

#[cfg(test)]
mod each_rule;
#[cfg(test)]
mod name_a;
#[cfg(test)]
mod nesting;
#[cfg(test)]
mod same;
#[cfg(test)]
mod shown;
