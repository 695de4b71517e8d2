//! What sound code is: it burns each edge of a drawing once, and nothing else but lead-ins, and detaches no edge before it burns.
//!
//! The definitions speak of all moves of a code at once, and of no way to check them. Its lightings are what it burns between one
//! piercing of the plate and the next: a trail of edges, behind a lead-in through scrap where one is free. Laws tie both to plans:
//! code that burns trails which cover the edges, detaches none too early, and takes each lead-in where it is free, is sound, with one
//! lighting for each trail. The top call promises sound code by them, and a check of foreign code promises its verdict. Nothing here runs.
#![tactic(auto)]

pub mod laws;
