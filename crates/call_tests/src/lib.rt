//! Calls of what no clause speaks for: streams that fail, answers with ample memory, and generic calls
//! and impls at a concrete type, through their bounds.
#![tactic(auto)]

#[cfg(test)]
mod arenas;
#[cfg(test)]
mod assembly;
#[cfg(test)]
mod covers;
#[cfg(test)]
mod descriptions;
#[cfg(test)]
mod queues;
#[cfg(test)]
mod streams;
