//! What a console is asked for.

/// What a console is made with. Times are in milliseconds.
#[derive(Clone, Copy, Debug)]
pub struct ConsoleSetup<'a> {
    /// The screen's name, of at most 255 bytes.
    pub name: &'a [u8],
    /// The rules that it goes by.
    pub rules: Rules,
}

/// The rules of a console. Times are in milliseconds.
#[derive(Clone, Copy, Debug)]
pub struct Rules {
    /// How many bytes of each text that a viewer cuts are kept at most.
    pub text_limit: u32,
    /// How many viewers there are at once at most, up to 8.
    pub viewers: u8,
    /// Whether all ends with the last viewer, once one came.
    pub until_idle: bool,
    /// Whether a viewer that wishes to be alone is served beside the others.
    pub always_shared: bool,
    /// Whether keys, pointers and texts are not reported.
    pub view_only: bool,
    /// How long a handshake may take.
    pub handshake: u64,
    /// How long bytes may wait for a viewer that takes none of them and sends none, if there is an
    /// end to it.
    pub timeout: Option<u64>,
    /// How long updates are held back at most.
    pub hold: u64,
    /// The pause before a relay calls a server that went away, if it does. Else all ends.
    pub retry: Option<u64>,
}
