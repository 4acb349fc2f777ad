//! Tests of the adapters to the system: child programs, the clock, and connections over TCP; and of a whole service over them.
#![tactic(auto)]

#[cfg(test)]
mod child_programs_tests;
#[cfg(test)]
mod folders;
#[cfg(test)]
mod service_over_tcp_tests;
#[cfg(test)]
mod system_clock_tests;
#[cfg(test)]
mod tcp_accept_tests;
#[cfg(test)]
mod tcp_links_tests;
