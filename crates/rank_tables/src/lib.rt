//! Objects of one size, numbered: counting tables, and objects from their numbers.
//!
//! The count of a node and a size is told by a list of its distinct objects
//! (`specs/Counting.antt`), the rank of an object by those that come before it in the order of
//! `specs/RankOrder.antt`: at a union by option, in a tuple or a sequence at the first place where
//! two objects differ, by the size there, then by this order there. The computed side is the table
//! rule of `specs/TableRule.antt`, products by the size of the first object, as in the recursive
//! method (Nijenhuis and Wilf 1978; Flajolet, Zimmermann and Van Cutsem 1994). As equations it has
//! more than one solution: at size 0 the class `B = Z + B*B` has the equation b = b * b. So a table
//! is filled by passes from zero, and its clause speaks of objects. `RankTables::make` refuses
//! labels, ranges and numbers above `2^128 - 1`, each exactly where it is so. `unrank` makes the
//! object of a number task by task, and `rank` takes the steps of an object from the last to the
//! first; no body calls itself. By their clauses they are inverse to each other, and number the
//! objects of each size from 0 without a gap (`shapes`). Most other public functions do nothing,
//! and their contracts are laws. No clause says how many passes are made, or that memory suffices.
#![tactic(auto)]

pub mod capped;
pub mod counts;
pub mod filling;
pub mod founded;
pub mod grid;
pub mod orders;
pub mod places;
pub mod places_stack;
pub mod rank_steps;
pub mod rank_tables;
pub mod ranks;
pub mod shapes;
pub mod splits;
pub mod steps;
pub mod tables;
pub mod tasks;
pub mod unranking;
