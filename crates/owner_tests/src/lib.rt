//! Tests of the allocators with one owner, of heap blocks, of loan books, and of layers over the
//! traits: the results of their calls, with ample memory and after failed requests for memory.
#![tactic(auto)]

#[cfg(test)]
mod tests;
