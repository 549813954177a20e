//! Calls below code of what no clause speaks for: answers with ample memory, one forest with each fault,
//! and a target through its bound.
#![tactic(auto)]

#[cfg(test)]
mod blocks;
#[cfg(test)]
mod forest_faults;
#[cfg(test)]
mod stored;
#[cfg(test)]
mod switches;
#[cfg(test)]
mod targets;
#[cfg(test)]
mod trees;
