//! What a call makes of a log map and of the tree that it is: the steps of the model, for calls that
//! look for entries, draft names or change bytes. It has lemmas alone, which `lfs_fs` cites.
#![tactic(auto)]
