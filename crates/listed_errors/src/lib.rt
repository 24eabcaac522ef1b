// Laws of the errors that the listing prints (specs/): over the samples that the panel shows, beside those that the writer states.
#![tactic(auto)]
