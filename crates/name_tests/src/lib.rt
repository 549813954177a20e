//! Names by scopes: calls with ample memory.
#![tactic(auto)]

#[cfg(test)]
mod names;
