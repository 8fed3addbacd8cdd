// What a label kind is, the pair of any two kinds, and the theorems that hold of every kind.
#![tactic(auto)]

pub mod kind;
pub mod pair;
pub mod theorems;

pub use kind::LabelKind;
pub use pair::Pair;
pub use theorems::labels_stand;
