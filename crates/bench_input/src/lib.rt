// The bench program's input: what a text says, line by line.
#![tactic(auto)]

pub mod bytes;
mod input;
mod lines;
pub mod numbers;

pub use input::parse;

// What a good input says: document 01's W and N, numbers as the run is given them, and how many entries its schedule has.
#[derive(Clone, Copy, Debug, PartialEq, Eq, Hash)]
pub struct Plan {
    pub workers: u16,
    pub nodes: u16,
    pub entries: u16,
}

// The number of an input's first bad line, counted from 1; 0 stands for too many bytes, as document 01 prints it, so it is no enum.
#[derive(Clone, Copy, Debug, PartialEq, Eq, Hash)]
pub struct BadLine(pub u16);
