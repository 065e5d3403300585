//! Tests alone: tables of boards, printed trees and the lines of blocks.
#![tactic(auto)]

#[cfg(test)]
mod boards;
#[cfg(test)]
mod rows;
#[cfg(test)]
mod text;
#[cfg(test)]
mod trees;
