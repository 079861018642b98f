/// A party's hour: energy in kWh, node prices in mil (thousandths of a yuan per MWh).
#[derive(Clone, Copy, Debug, PartialEq, Eq)]
pub struct Line {
    pub day_ahead: i64,
    pub metered: i64,
    pub day_ahead_price: i64,
    pub real_time_price: i64,
}

/// A contract of one hour: the seller and the buyer by their party numbers, energy in kWh, the price in mil.
#[derive(Clone, Copy, Debug, PartialEq, Eq)]
pub struct Contract {
    pub seller: u8,
    pub buyer: u8,
    pub hour: u8,
    pub kwh: i64,
    pub price: i64,
}

/// The two prices of an hour that hold for the whole market, in mil.
#[derive(Clone, Copy, Debug, PartialEq, Eq)]
pub struct UnifiedPrices {
    pub day_ahead: i64,
    pub real_time: i64,
}
