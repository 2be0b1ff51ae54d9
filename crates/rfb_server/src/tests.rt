//! Tests of a server that is fed what clients send. A server is ended by `drop`, whose proof is
//! shorter than that of the same at the end of a body. Lists of steps and tables are constants
//! behind a `&`: one that is made in a body takes several times as long to prove.

mod client_messages;
mod composing;
mod copied;
mod counted;
mod cuts;
mod drawings;
mod hints;
mod late;
mod long_streams;
mod memory;
mod model;
mod one_viewer;
mod pixels;
mod places;
mod requests;
mod rows;
mod scene;
mod scrolling;
mod sessions;
mod several_hints;
mod shared;
mod slight;
mod twins;
mod two_viewers;
mod waiting;
