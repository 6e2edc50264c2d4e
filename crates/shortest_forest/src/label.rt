/// The length of a walk from a source to an FPGA, and the wire by which it enters, which a source has not.
#[derive(Clone, Copy)]
pub struct Label {
    pub distance: u64,
    pub wire: Option<u32>,
}
