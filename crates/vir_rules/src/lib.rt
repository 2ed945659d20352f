//! Rules of inference: how properties of a voting rule are derived from those of its parts.
//!
//! Each row of a table says that a term of some form has a property, or that two terms are disjoint, where
//! its parts have certain properties. This layer reads that table, and knows derivations and reasons as
//! what the layers above make, check and print; that the rules are true of what terms mean is proved in
//! `vir_sound`. Its one contract: of each rule and judgement `fits`, `premise_count` and `premise` tell
//! just what the table of `specs/Table.antt` tells, read as `specs/Premises.antt` has it. The code's own
//! table stands in `table.rt`, and is proved to be that one, row by row and name by name. A `Derivation`
//! is seen as a tree of rules (`specs/RuleTrees.antt`); which trees are valid for a claim, which one is
//! the first, and which node is the first bad one is defined in `specs/Derivations.antt` and
//! `specs/BadNodes.antt`, and a `Why` is seen as a list of reasons (`specs/Reasons.antt`). Properties and
//! rules are told by their names: `specs/Props.antt` has the texts, and `specs/Named.antt` says what a name
//! stands for. It stands on std, on `itoa` for the digits of numbers, and on `vir_term` for terms and their
//! properties.
#![tactic(auto)]

mod derivation;
mod families;
mod form;
mod judgement;
pub mod laws;
mod letters;
mod numbers;
mod premises;
mod prop_name;
mod prop_reader;
mod row;
mod rule_id;
mod table;
mod unfit;
mod why;

pub use derivation::{Children, Derivation};
pub use form::Form;
pub use judgement::Judgement;
pub use numbers::{number_for, prop_for};
pub use premises::{fits, need_at, need_count, premise, premise_count};
pub use prop_name::{Counted, PropName, prop_word};
pub use prop_reader::read_prop;
pub use row::{Conclusion, Family, Need, Pairing, Part, Shape, Wanted};
pub use rule_id::RuleId;
pub use unfit::Unfit;
pub use vir_term::Prop;
pub use why::{Why, WhyLine};
