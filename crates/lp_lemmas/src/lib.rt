//! Small lemmas of lists, options, results, Booleans and numbers that std lacks, and what holds of each or of some element
//! of a list, as a recursion: no code. They stand in `proofs/`, by topic.
#![tactic(auto)]
