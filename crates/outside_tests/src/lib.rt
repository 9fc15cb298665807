//! Tests of what no run of a program shows: fakes that fail in mid-stream and are asked again, children with several open calls, and
//! streams that are cut anywhere.
#![tactic(auto)]

#[cfg(test)]
mod child_tests;
#[cfg(test)]
mod serving_tests;
#[cfg(test)]
mod stream_tests;
#[cfg(test)]
mod world;
