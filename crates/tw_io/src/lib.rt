#![tactic(auto)]

//! Byte sources and sinks: whole reads and writes over them, devices in memory, and the standard
//! streams. Each device has an error counter, and may report the bytes that it has left or has taken.

mod buffered;
mod device;
mod memory;
mod reading;
mod streams;
mod vec_sink;
mod writing;

pub use buffered::BufferedSink;
pub use device::{BUFFER_LEN, Failed, ReadError, Sink, Source, WriteFault};
pub use memory::{MemSink, MemSource, PlainSource};
pub use reading::read_all;
pub use streams::{HostSink, HostSource};
pub use vec_sink::VecSink;
pub use writing::{write_all, write_decimal};
