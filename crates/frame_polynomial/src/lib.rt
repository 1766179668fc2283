// What a frame is, and what is so of every frame; there is no code.
#![tactic(auto)]
