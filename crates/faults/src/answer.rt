/// What a refused caller is told: the layer (1 file, 2 record, 3 month), the number of the refusal and the place.
// Numbers, a form of docs/DECISIONS.md: callers are told numbers; the kinds themselves are the enums of `causes`.
#[derive(Clone, Copy, Debug, PartialEq, Eq)]
pub struct Refusal {
    pub layer: u8,
    pub number: u8,
    pub place: u64,
}
