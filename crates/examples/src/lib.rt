// The two whole streams of the paper, from their modules: theorems alone, which a check of the translator need not repeat. No functions.
#![tactic(auto)]
