//! Power, averaged over a block.

/// Power in kW: of one generator, or of a station in all.
#[derive(Clone, Copy, PartialEq, Eq, Debug, Default)]
pub struct Load {
    pub actual: u32,
    pub capacity: u32,
    pub installed: u32,
}
