//! Pictures, rectangles and sets of places, for values of any type.
//!
//! A `Picture` is a framebuffer of RFC 6143: rows of places, numbered from the top left, each with
//! a value. An `Area` is the part of it that was asked for, and a `PlaceSet` any set of its places.
//! Each owns its places: they are taken when it is made, and freed when it is dropped. Nothing else
//! here takes memory. What a set owns is of a type that can't grow; a test shows that no call makes
//! a picture grow. The caller says that a place or a rectangle lies in it, and has `Picture::holds`
//! to test it. No value is read or judged here, and no bytes of the protocol are known.
#![tactic(auto)]

mod area;
mod edges;
mod picture;
mod place_set;
mod plane;
mod rect;
#[cfg(test)]
mod tests;
mod words;

pub use area::Area;
pub use picture::Picture;
pub use place_set::PlaceSet;
pub use rect::Rect;
