// The claim about a picture, and the room that always suffices for one (specs/).
#![tactic(auto)]
