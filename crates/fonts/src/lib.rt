// The beginning of font files: fields of bytes, and faults.
#![tactic(auto)]

mod bytes;
mod faults;

pub use faults::{ByteFault, Fault, FontFault, TableFault};
