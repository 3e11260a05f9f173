// The list of a station is a definition only (specs/); the code stands in the crate meet.
#![tactic(auto)]
