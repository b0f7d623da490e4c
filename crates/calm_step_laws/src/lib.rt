//! What each step of a peer comes to in a calm run, over stores whose tree is whole.
#![tactic(auto)]
