//! What every crate of the compiler stands on: lists, sources and sinks, the arithmetic of words
//! and a counter of steps.
#![tactic(auto)]

mod bytes;
mod cause;
mod copy;
mod count_sink;
mod failed;
mod full_source;
mod items;
mod mem_sink;
mod mem_source;
mod memory;
mod order;
mod read_end;
mod sink;
mod source;
mod standard;
mod steps;
mod which;
mod whole;
mod words;

pub use bytes::Bytes;
pub use cause::Cause;
pub use count_sink::CountSink;
pub use failed::Failed;
pub use full_source::FullSource;
pub use items::Items;
pub use mem_sink::MemSink;
pub use mem_source::MemSource;
pub use memory::Memory;
pub use order::{Order, join, split};
pub use read_end::ReadEnd;
pub use sink::Sink;
pub use source::Source;
pub use standard::{StdSink, StdSource};
pub use steps::Steps;
pub use which::Which;
pub use whole::{read_all, write_all};
pub use words::{sdiv, srem, wrap32};
