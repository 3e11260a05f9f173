// What the carry-over of an old book comes to is said in specs/; the code stands in the crate carry.
#![tactic(auto)]
