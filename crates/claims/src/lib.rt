// What is claimed: specs/. It has no function.
#![tactic(auto)]
