//! The calls of C, each written once over any handle. Whatever can be checked is checked here: for
//! a wrong argument the caller gets a code.
//!
//! The modules, in the order in which to read them:
//!
//! - `code`: the codes that the functions return. `answer`: a chunk, a figure or all figures, in the form that C gets them.
//! - `layout`: layouts from two numbers that C passes.
//! - `held`: a value, or nothing. `handle`: the handle in the host.
//! - `kind`: what a call needs from a kind. `one_owner`: the allocators with one owner. `call`: each call.
#![tactic(auto)]

pub mod answer;
pub mod call;
pub mod code;
pub mod handle;
pub mod held;
pub mod kind;
pub mod layout;
pub mod one_owner;
