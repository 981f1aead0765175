//! What a flat design means: the effect of its statements, its settled valuation, and the machine that it is.
#![tactic(auto)]
