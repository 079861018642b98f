use crate::answers::{padded, part, refusal, shares};
use crate::equal::Equal;
use market::Either;
use sharing::{LargestRemainder, Running, Unshareable, exact_part};

/// One of three rules.
type AnyRule = Either<Equal, Either<LargestRemainder, Running>>;

const EQUAL: AnyRule = Either::First(Equal);

const REMAINDER: AnyRule = Either::Second(Either::First(LargestRemainder));

const RUNNING: AnyRule = Either::Second(Either::Second(Running));

#[test]
fn the_shares_of_the_chosen_rule(rt: HostRuntime) {
    assert_eq!(rt; shares(&EQUAL, &[0, 2, 2], 5), Some(padded([2, 2, 1])));
    assert_eq!(rt; shares(&REMAINDER, &[0, 2, 2], 5), Some(padded([0, 3, 2])));
    assert_eq!(rt; shares(&RUNNING, &[0, 2, 2], 5), Some(padded([0, 2, 3])));
}

#[test]
fn the_weights_of_the_chosen_rule(rt: HostRuntime) {
    assert_eq!(rt; exact_part(&EQUAL, &[0, 2, 2], 5, 0), part(1, 3, 1, 2));
    assert_eq!(rt; exact_part(&REMAINDER, &[0, 2, 2], 5, 0), part(0, 4, 0, 0));
    assert_eq!(rt; exact_part(&RUNNING, &[0, 2, 2], 5, 1), part(2, 4, 2, 2));
}

#[test]
fn the_limit_of_the_chosen_rule(rt: HostRuntime) {
    let given = [1_000_000_000, 2_000_000_000];
    assert_eq!(rt; refusal(&EQUAL, &given, 3_000_000_001), None);
    assert_eq!(rt;
        refusal(&REMAINDER, &given, 3_000_000_001),
        Some(Unshareable::Product)
    );
    assert_eq!(rt;
        refusal(&RUNNING, &given, 3_000_000_001),
        Some(Unshareable::Product)
    );
}

#[test]
fn a_choice_of_two(rt: HostRuntime) {
    let mut rule: Either<LargestRemainder, Running> = Either::First(LargestRemainder);
    assert_eq!(rt; shares(&rule, &[1, 1, 1], 100), Some(padded([34, 33, 33])));
    rule = Either::Second(Running);
    assert_eq!(rt; shares(&rule, &[1, 1, 1], 100), Some(padded([33, 33, 34])));
}
