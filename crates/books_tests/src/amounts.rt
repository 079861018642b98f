use crate::pool::Pool;
use bills::{Beyond, HourAmounts, bill, hour_amounts, three_part_bill, two_part_bill};
use books::{RuleBook, ThreePart, TwoPart};
use market::{Contract, Either, Line, Side, UnifiedPrices};

/// The seller of a day that is worked out in full: 1,000 kWh day-ahead, 1,200 metered.
const PLANT: Line = Line {
    day_ahead: 1_000,
    metered: 1_200,
    day_ahead_price: 300_000,
    real_time_price: 400_000,
};

/// Its buyer.
const USER: Line = Line {
    day_ahead: 900,
    metered: 1_150,
    day_ahead_price: 0,
    real_time_price: 0,
};

const UNIFIED: UnifiedPrices = UnifiedPrices {
    day_ahead: 300_000,
    real_time: 400_000,
};

const SOLD: [Contract; 1] = [Contract {
    seller: 0,
    buyer: 1,
    hour: 1,
    kwh: 500,
    price: 350_000,
}];

/// The amounts of an hour with this contract.
fn amounts<B: RuleBook>(book: &B, side: Side, line: Line) -> Result<HourAmounts, Beyond> {
    hour_amounts(book, side, &SOLD, line, UNIFIED)
}

#[test]
fn three_part_day(rt: HostRuntime) {
    assert_eq!(rt;
        amounts(&ThreePart, Side::Seller, PLANT),
        Ok(HourAmounts {
            contracts: -25_000_000,
            spot: -380_000_000,
            difference: 0,
            mismatch: -380_000_000,
        })
    );
    assert_eq!(rt;
        amounts(&ThreePart, Side::Buyer, USER),
        Ok(HourAmounts {
            contracts: 25_000_000,
            spot: 370_000_000,
            difference: 0,
            mismatch: 370_000_000,
        })
    );
}

#[test]
fn two_part_day(rt: HostRuntime) {
    assert_eq!(rt;
        amounts(&TwoPart, Side::Seller, PLANT),
        Ok(HourAmounts {
            contracts: 25_000_000,
            spot: -380_000_000,
            difference: 100_000_000,
            mismatch: -480_000_000,
        })
    );
    assert_eq!(rt;
        amounts(&TwoPart, Side::Buyer, USER),
        Ok(HourAmounts {
            contracts: -25_000_000,
            spot: 460_000_000,
            difference: 0,
            mismatch: 460_000_000,
        })
    );
}

#[test]
fn one_of_two_books(rt: HostRuntime) {
    let first: Either<ThreePart, TwoPart> = Either::First(ThreePart);
    let second: Either<ThreePart, TwoPart> = Either::Second(TwoPart);
    assert_eq!(rt;
        amounts(&first, Side::Seller, PLANT),
        amounts(&ThreePart, Side::Seller, PLANT)
    );
    assert_eq!(rt;
        amounts(&second, Side::Seller, PLANT),
        amounts(&TwoPart, Side::Seller, PLANT)
    );
}

#[test]
fn a_third_book(rt: HostRuntime) {
    let pool = Pool::RealTime;
    assert_eq!(rt;
        amounts(&pool, Side::Seller, PLANT),
        Ok(HourAmounts {
            contracts: 25_000_000,
            spot: -480_000_000,
            difference: 0,
            mismatch: -480_000_000,
        })
    );
    let early = Pool::DayAhead;
    assert_eq!(rt;
        amounts(&early, Side::Buyer, USER),
        Ok(HourAmounts {
            contracts: 25_000_000,
            spot: 345_000_000,
            difference: 0,
            mismatch: 345_000_000,
        })
    );
    let nested: Either<Pool, Either<ThreePart, TwoPart>> = Either::Second(Either::First(ThreePart));
    assert_eq!(rt;
        amounts(&nested, Side::Buyer, USER),
        amounts(&ThreePart, Side::Buyer, USER)
    );
}

/// The prices of an hour whose node prices are not its unified ones.
const APART: UnifiedPrices = UnifiedPrices {
    day_ahead: 310_000,
    real_time: 390_000,
};

#[test]
fn bills_by_the_provinces_formulas(rt: HostRuntime) {
    // 500 at 350,000 and 500 at −10,000, then 500 at 300,000 and 200 at 400,000
    assert_eq!(rt;
        three_part_bill(Side::Seller, &SOLD, PLANT, APART),
        Ok(-400_000_000)
    );
    // 500 at 350,000, then 400 at 310,000 and 250 at 390,000
    assert_eq!(rt;
        three_part_bill(Side::Buyer, &SOLD, USER, APART),
        Ok(396_500_000)
    );
    // 500 at 360,000, then 700 at 400,000 and 1,000 at −100,000
    assert_eq!(rt;
        two_part_bill(Side::Seller, &SOLD, PLANT, APART),
        Ok(-360_000_000)
    );
    // 500 at 350,000, then 650 at 390,000
    assert_eq!(rt;
        two_part_bill(Side::Buyer, &SOLD, USER, APART),
        Ok(428_500_000)
    );
}

#[test]
fn bills_of_one_of_two_books(rt: HostRuntime) {
    let first: Either<ThreePart, TwoPart> = Either::First(ThreePart);
    let second: Either<ThreePart, TwoPart> = Either::Second(TwoPart);
    assert_eq!(rt;
        bill(&first, Side::Seller, &SOLD, PLANT, APART),
        Ok(-400_000_000)
    );
    assert_eq!(rt;
        bill(&second, Side::Seller, &SOLD, PLANT, APART),
        Ok(-360_000_000)
    );
}

/// The largest numbers that a book is asked about, all against one another.
const LARGEST: Line = Line {
    day_ahead: 4_000_000,
    metered: 0,
    day_ahead_price: 5_000_000,
    real_time_price: -5_000_000,
};

const FARTHEST: UnifiedPrices = UnifiedPrices {
    day_ahead: -5_000_000,
    real_time: 5_000_000,
};

#[test]
fn the_largest_numbers(rt: HostRuntime) {
    let contract = Contract {
        seller: 0,
        buyer: 1,
        hour: 24,
        kwh: 4_000_000,
        price: 5_000_000,
    };
    let many = [contract; 256];
    assert_eq!(rt;
        three_part_bill(Side::Seller, &[], LARGEST, FARTHEST),
        Ok(-40_000_000_000_000)
    );
    assert_eq!(rt;
        three_part_bill(Side::Buyer, &many, LARGEST, FARTHEST),
        Ok(10_200_000_000_000_000)
    );
}

#[test]
fn hours_that_cannot_be_asked_about(rt: HostRuntime) {
    let seller = Side::Seller;
    let mut line = PLANT;
    line.metered = -1;
    line.real_time_price = 5_000_001;
    assert_eq!(rt;
        two_part_bill(seller, &SOLD, line, UNIFIED),
        Err(Beyond::MeteredEnergy)
    );
    line.metered = 0;
    assert_eq!(rt;
        two_part_bill(seller, &SOLD, line, UNIFIED),
        Err(Beyond::RealTimePrice)
    );
    line.day_ahead = 4_000_001;
    assert_eq!(rt;
        two_part_bill(seller, &SOLD, line, UNIFIED),
        Err(Beyond::DayAheadEnergy)
    );
    line = PLANT;
    line.day_ahead_price = i64::MIN;
    assert_eq!(rt;
        three_part_bill(seller, &SOLD, line, UNIFIED),
        Err(Beyond::DayAheadPrice)
    );
    let mut unified = UNIFIED;
    unified.real_time = -5_000_001;
    assert_eq!(rt;
        three_part_bill(seller, &SOLD, PLANT, unified),
        Err(Beyond::RealTimeUnified)
    );
    unified.day_ahead = i64::MAX;
    assert_eq!(rt;
        three_part_bill(seller, &SOLD, PLANT, unified),
        Err(Beyond::DayAheadUnified)
    );
}

#[test]
fn contracts_that_cannot_be_asked_about(rt: HostRuntime) {
    let many = [SOLD[0]; 257];
    assert_eq!(rt;
        two_part_bill(Side::Buyer, &many, USER, UNIFIED),
        Err(Beyond::ContractCount)
    );
    let mut three = [SOLD[0]; 3];
    three[2].kwh = -1;
    assert_eq!(rt;
        two_part_bill(Side::Buyer, &three, USER, UNIFIED),
        Err(Beyond::ContractEnergy(2))
    );
    three[1].price = 5_000_001;
    assert_eq!(rt;
        two_part_bill(Side::Buyer, &three, USER, UNIFIED),
        Err(Beyond::ContractPrice(1))
    );
    three[1].kwh = 4_000_001;
    assert_eq!(rt;
        two_part_bill(Side::Buyer, &three, USER, UNIFIED),
        Err(Beyond::ContractEnergy(1))
    );
}
