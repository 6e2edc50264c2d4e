/// An undirected wire between two FPGAs, which are named by their numbers from 0.
#[derive(Clone, Copy, Debug, PartialEq, Eq)]
pub struct Wire {
    pub a: u32,
    pub b: u32,
}
