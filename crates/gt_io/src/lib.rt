//! Files and output: a store of files and a sink of bytes, as traits that say what is held, what was written, and how
//! often a call has failed. The layer above uses the traits; `MemFiles`, `MemSink`, `SureFiles` and `SureSink`
//! keep all in memory, and `HostFiles` and `HostOut` are the machine's own.
#![tactic(auto)]

mod fail;
mod files;
mod host_files;
mod host_out;
mod mem_files;
mod mem_sink;
mod schedule;
mod shelf;
mod sink;
mod sure_files;
mod sure_sink;

pub use fail::{ReadFail, WriteFail};
pub use files::Files;
pub use host_files::HostFiles;
pub use host_out::HostOut;
pub use mem_files::MemFiles;
pub use mem_sink::MemSink;
pub use sink::Sink;
pub use sure_files::SureFiles;
pub use sure_sink::SureSink;

#[cfg(test)]
mod tests;
