//! Tests of texts and of HTTP over links in memory.
#![tactic(auto)]

#[cfg(test)]
mod batch_http_tests;
#[cfg(test)]
mod doors_tests;
#[cfg(test)]
mod http_head_tests;
#[cfg(test)]
mod http_laws_tests;
#[cfg(test)]
mod http_link_tests;
#[cfg(test)]
mod http_requests_tests;
#[cfg(test)]
mod http_routes_tests;
#[cfg(test)]
mod link_doors_tests;
#[cfg(test)]
mod origin_tests;
#[cfg(test)]
mod scaling_bodies_tests;
#[cfg(test)]
mod scaling_http_tests;
#[cfg(test)]
mod wire_bodies_tests;
#[cfg(test)]
mod wire_json_tests;
#[cfg(test)]
mod wire_lines_tests;
#[cfg(test)]
mod wire_operations_tests;
#[cfg(test)]
mod wire_words_tests;
