// Theory alone: runs of calls at two ends, and the demand that what is sent is delivered.

#![tactic(auto)]
