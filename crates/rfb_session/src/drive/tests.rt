//! A driver between a server and a rig, in memory.

mod bench;
mod ends;
mod lines;
