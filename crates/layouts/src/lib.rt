// Sets of layouts, unfolding and folding.

#![tactic(auto)]
