// The main theorems of this repository (specs/Main.antt).
#![tactic(auto)]
