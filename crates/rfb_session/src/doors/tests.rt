//! Loops over memory.

mod devices;
mod living;
mod moving;
