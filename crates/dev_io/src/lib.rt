//! The files that a program reads and the stream that it writes, as traits that count their faults.
#![tactic(auto)]

mod buffer;
mod call_record;
mod files;
mod mem_files;
mod mem_out;
mod numbers;
mod output;
mod output_faults;
mod real;
mod retries;
mod schedule;

pub use buffer::{BUFFER_SIZE, OutBuffer, write_parts};
pub use files::{Failed, Files, Opened};
pub use mem_files::MemFiles;
pub use mem_out::MemOut;
pub use numbers::{put_large, put_number, put_signed};
pub use output::{Out, WriteFault, write_all};
pub use output_faults::OutputFault;
pub use real::{RealFiles, RealOut};
pub use retries::read_retrying;
