// The pattern repository's calls on a lent store: setup, command lines and the listing.
#![tactic(auto)]
