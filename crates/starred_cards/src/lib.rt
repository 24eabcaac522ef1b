// The starred cards.
#![tactic(auto)]
