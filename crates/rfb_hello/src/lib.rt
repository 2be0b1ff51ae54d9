//! The handshakes of RFC 6143, sections 7.1 to 7.3 and Appendix A, at both ends.
#![tactic(auto)]

mod fault;
mod fed;
pub mod law;
mod offered;
mod pieces;
mod server_hello;
mod step;
#[cfg(test)]
mod tests;
mod text;
mod version;
mod viewer_hello;

pub use fault::HelloFault;
pub use fed::Fed;
pub use offered::Offered;
pub use server_hello::ServerHello;
pub use step::{ServerStep, ViewerStep};
pub use text::Text;
pub use version::Version;
pub use viewer_hello::ViewerHello;
