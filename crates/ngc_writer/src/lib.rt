//! The code that is written, after RS274/NGC: a head, the chains in burning order, and a tail.
//!
//! Every chain is lit once: the torch goes unlit to where it begins, is lit, burns from vertex to vertex and is put out. The whole
//! code is made in memory before any file is touched, in **O(n)** for n edges.
#![tactic(auto)]

pub mod code;

pub use code::write_code;
