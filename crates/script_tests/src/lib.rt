//! Tests of the commands `replay`, `formula`, `drill` and `export`: what scripts and formulas write, and what faults leave.
#![tactic(auto)]

#[cfg(test)]
mod formula_tests;
#[cfg(test)]
mod keeper_tests;
#[cfg(test)]
mod resize_tests;
#[cfg(test)]
mod run_tests;
#[cfg(test)]
mod scaling_tests;
#[cfg(test)]
mod script_tests;
#[cfg(test)]
mod store_tests;
