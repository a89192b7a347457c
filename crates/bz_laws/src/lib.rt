//! The laws that every bound, decision, making and text stands on.
//!
//! They are proved over the definitions of `bz_model` alone. Each public function does nothing, and
//! its contract is one law over every specification; the lemmas behind it stand in `proofs/`, for
//! the crates above to cite. Few definitions are added: sums of terms (`specs/Terms.antt`), what
//! the laws need of a sound specification (`specs/Sound.antt`, `specs/Spelled.antt`), numbers for
//! nodes that cover what the parts give or are reached by it (`specs/Values.antt`), and objects in
//! canonical order (`specs/InOrder.antt`). No clause speaks of code or of rounding.
#![tactic(auto)]

pub mod by_height;
pub mod constructions;
pub mod decisions;
pub mod enclosures;
pub mod ideal_sampler;
pub mod object_texts;
pub mod objects;
pub mod order;
pub mod totals;
