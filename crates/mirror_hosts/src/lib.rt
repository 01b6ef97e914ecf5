//! The hosts of mirrors: which mirrors share one.
#![tactic(auto)]

mod hosts;

pub use hosts::host_numbers;
