// How much room is enough for each writer, and a record that takes all of it: theorems about the definitions (proofs/Room.antt), and no code.
#![tactic(auto)]
