//! Each module has the program of one page.

mod map;
mod table;
