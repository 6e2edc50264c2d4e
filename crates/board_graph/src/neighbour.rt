/// A wire at an FPGA, with the FPGA at its other end.
#[derive(Clone, Copy, Debug, PartialEq, Eq)]
pub struct Neighbour {
    pub wire: u32,
    pub fpga: u32,
}
