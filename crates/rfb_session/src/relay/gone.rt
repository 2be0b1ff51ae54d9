//! How a server goes away.

use rfb_viewer::ViewerFault;

/// How a server went away.
#[derive(Clone, Copy, Debug, PartialEq, Eq)]
pub enum Gone {
    /// It closed its connection.
    Closed,
    /// Its connection failed.
    Device,
    /// It sent what no server does, or memory was wanting.
    Failed(ViewerFault),
    /// Its screen has no place, or more than 4,096 columns or rows.
    Size { width: u16, height: u16 },
}
