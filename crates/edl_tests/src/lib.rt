//! Tests of edit decision lists, media lists, scripts and the texts of faults. There is nothing
//! here but tests.
#![tactic(auto)]

#[cfg(test)]
mod fault_tests;
#[cfg(test)]
mod list_tests;
#[cfg(test)]
mod media_tests;
#[cfg(test)]
mod note_tests;
#[cfg(test)]
mod noted_tests;
#[cfg(test)]
mod order_tests;
#[cfg(test)]
mod owner_tests;
#[cfg(test)]
mod reader_tests;
#[cfg(test)]
mod script_tests;
#[cfg(test)]
mod statement_tests;
#[cfg(test)]
mod writer_tests;
