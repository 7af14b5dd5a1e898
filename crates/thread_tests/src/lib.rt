//! Tests of values that threads share: the results of their calls, with ample memory and after
//! failed requests for memory.
#![tactic(auto)]

#[cfg(test)]
mod tests;
