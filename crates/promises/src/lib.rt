// This crate holds laws only: what was promised of the store, said of its public calls as their contracts have them.
#![tactic(auto)]
