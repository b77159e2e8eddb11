//! Tests of times, rates, labels and record points, and of the words of a command. There is nothing
//! here but tests.
#![tactic(auto)]

#[cfg(test)]
mod label_tests;
#[cfg(test)]
mod point_tests;
#[cfg(test)]
mod rate_tests;
#[cfg(test)]
mod tick_tests;
#[cfg(test)]
mod tool_tests;
#[cfg(test)]
mod word_tests;
