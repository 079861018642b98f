/// The two markets of a day.
#[derive(Clone, Copy, Debug, PartialEq, Eq)]
pub enum Market {
    DayAhead,
    RealTime,
}

/// A unified price in mil, and the hour whose price it is, counted from 0; none where it is the reference price.
#[derive(Clone, Copy, Debug, PartialEq, Eq)]
pub struct HourPrice {
    pub mil: i64,
    pub from: Option<usize>,
}
