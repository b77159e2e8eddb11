//! Tests of lists, texts and devices, and of JSON (RFC 8259): what is read, upgraded and written.
//! There is nothing here but tests.
#![tactic(auto)]

#[cfg(test)]
mod device_tests;
#[cfg(test)]
mod fitted_tests;
#[cfg(test)]
mod json_tests;
#[cfg(test)]
mod layout_tests;
#[cfg(test)]
mod line_tests;
#[cfg(test)]
mod sequence_tests;
#[cfg(test)]
mod upgrade_tests;
#[cfg(test)]
mod value_tests;
#[cfg(test)]
mod values;
