//! Tests of the lock manager by its calls, in a crate of their own: `lock_manager` itself has none, so that
//! it is proved once. Apart from its tests there is nothing here.
#![tactic(auto)]

#[cfg(test)]
mod tests;
