// The plain data types that every crate shares. What is right is said in specs/, the paper's rules one by one.
#![tactic(auto)]

pub mod chip;
pub mod codes;
pub mod counts;
pub mod map;
pub mod records;
pub mod registers;
