// The store and the abstract machine, and what holds of both.
#![tactic(auto)]
