// Theory alone: power series and polynomials over any field of characteristic 2, for the code word's proofs and the checks'.

#![tactic(auto)]
