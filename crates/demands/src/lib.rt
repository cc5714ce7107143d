// The three demands on the library, as statements and theorems: this crate has no function.
#![tactic(auto)]
