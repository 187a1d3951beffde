// The text of a setup and what it means.
#![tactic(auto)]
