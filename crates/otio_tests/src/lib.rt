//! Tests that cross crates: command lines over files and streams in memory that fail or take few
//! bytes at a time, calls that no command makes, and three callers of the library. There is nothing
//! here but tests.
#![tactic(auto)]

#[cfg(test)]
mod calls;
#[cfg(test)]
mod device_tests;
#[cfg(test)]
mod fault_tests;
#[cfg(test)]
mod library_callers;
#[cfg(test)]
mod object_calls;
#[cfg(test)]
mod pieces_tests;
#[cfg(test)]
mod runs;
#[cfg(test)]
mod texts;
#[cfg(test)]
mod timeline_calls;
#[cfg(test)]
mod timelines;
