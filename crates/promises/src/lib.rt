// What follows from the contracts of the product's calls alone: which number is due when, two outcomes are one, and what a user gets.
#![tactic(auto)]

pub fn nothing() {}
