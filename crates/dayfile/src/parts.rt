/// A section's offset and length in bytes.
#[derive(Clone, Copy)]
pub struct Extent {
    pub offset: u32,
    pub length: u32,
}

/// Where the sections of a day's file lie, in bytes from the file's start, and how many contracts there are.
#[derive(Clone, Copy)]
pub struct Layout {
    pub quantities: u32,
    pub prices: u32,
    pub contracts: u32,
    pub contract_count: u32,
}
