//! Views that are lists of tokens: what the rules of two tables share, which say that each token stands in one view at
//! most. `specs/Views.antt` has the words, and `specs/ViewsLaws.antt` what a change of one view does to what is said of
//! all.
#![tactic(auto)]
