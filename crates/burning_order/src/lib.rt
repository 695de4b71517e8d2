//! The order in which the components of a drawing burn: each after all that lie in it.
//!
//! A component inside another drops with what is cut round it, so it's burnt first. Of the components that are ready, since all
//! that lie in them are done, the one with the least number goes first. The order is found in **O(n)** for n components, without a
//! queue: a parent has a lesser number than its children, so once it's ready it's the least of all that are.
//!
//! It stands on the numbers of components alone: any parents with lesser numbers give an order, and only one.
#![tactic(auto)]

pub mod order;
#[cfg(test)]
mod tests;

pub use order::burning_order;
