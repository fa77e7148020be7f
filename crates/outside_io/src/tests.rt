//! Reading and writing over devices that fail, end and run out of room.

mod copying;
mod reads;
mod streams;
mod writes;
