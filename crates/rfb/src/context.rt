//! What a command works with: the machine, and the streams of its process.

use std::alloc::Global;

/// The machine, and where a command reads and writes: the streams of the process, or files in their
/// place.
#[derive(Drop)]
pub struct Context<'p, 'i, 'o, 'e, P, R, W, E> {
    /// Memory, the clock, files and the network.
    pub rt: &'p P,
    pub input: &'i mut R,
    pub output: &'o mut W,
    /// Where a line says why a command failed.
    pub errors: &'e mut E,
    /// Whether sentences say there how it goes, too.
    pub explains: bool,
}

impl<P: AllocGlobal, R, W, E> Context<'_, '_, '_, '_, P, R, W, E> {
    /// The memory.
    pub fn alloc(&self) -> Global {
        self.rt.alloc()
    }
}
