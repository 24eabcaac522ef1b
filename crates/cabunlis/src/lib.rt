// The boundary for a C host: the plane calls, the picture call, the error that the panel shows, the room that suffices, book files and the built-in tables. include/cabunlis.h says the same in C.
#![tactic(auto)]

pub mod answers;
pub mod books;
pub mod errors;
pub mod pictures;
pub mod planes;
pub mod rooms;
