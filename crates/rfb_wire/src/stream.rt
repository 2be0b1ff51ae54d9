//! The base of streams: what every end of a connection that is fed bytes in slices
//! rests on, whatever the items of its stream are. It has specifications and laws
//! alone, and knows no message.

pub mod law;
