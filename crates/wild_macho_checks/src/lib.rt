//! Instances of the promises of `run` and `link_image`, written out and computed.
#![tactic(auto)]
