// What a role that does not dominate another cannot learn of that role's files: definitions and theorems, no code.
#![tactic(auto)]
