//! Tests of calendars over desks: what scripts show, as the command `calendar` is to write it.
#![tactic(auto)]

#[cfg(test)]
mod runs;
#[cfg(test)]
mod scripts;
