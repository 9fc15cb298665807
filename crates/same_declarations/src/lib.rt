//! Whether two declarations are the same, member by member.
//!
//! The connections that an aggregator stands for have to declare the same; `Same` is the comparison, in time linear in what is compared and
//! without memory. Begin reading at `same.rt`.
#![tactic(auto)]

mod declarations;
mod rules;
mod same;

pub use same::Same;
