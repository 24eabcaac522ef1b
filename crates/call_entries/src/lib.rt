// Parts of the writer that can be called alone, for programs in other languages: thin entries over the proved calls.
#![tactic(auto)]

pub mod inner;
pub mod leaf_part;
pub mod plan_part;
pub mod sum_part;
pub mod vector_part;
