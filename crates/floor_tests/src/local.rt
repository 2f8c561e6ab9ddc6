//! The local lock table and its index.

mod acquires;
mod growth;
mod places;
mod random_calls;
mod sizes;
mod turn_lists;
mod turns;
