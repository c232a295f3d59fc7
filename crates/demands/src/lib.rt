// Theory alone: the three demands, and the small set of document 01, over the definitions of all the layers.

#![tactic(auto)]
