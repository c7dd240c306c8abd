// This crate holds laws only: order leaves no trace.
#![tactic(auto)]
