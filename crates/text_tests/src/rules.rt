//! Runs in order, and the numbers of rules.
use meta_model::ExtentSpan;
use volume_rules::{Rule, lie_apart};

const EARLY: ExtentSpan = ExtentSpan {
    on: 1,
    first: 0,
    count: 8,
};

const LATE: ExtentSpan = ExtentSpan {
    on: 1,
    first: 8,
    count: 4,
};

const ACROSS: ExtentSpan = ExtentSpan {
    on: 1,
    first: 7,
    count: 2,
};

const ELSEWHERE: ExtentSpan = ExtentSpan {
    on: 0,
    first: 7,
    count: 2,
};

#[test]
fn runs_are_sorted_and_lie_apart(rt: HostRuntime) {
    let mut runs = [LATE, ELSEWHERE, EARLY];
    assert!(rt; lie_apart(&mut runs));
    assert_eq!(rt; runs, [ELSEWHERE, EARLY, LATE]);
}

#[test]
fn an_extent_in_two_runs_is_found(rt: HostRuntime) {
    let mut runs = [LATE, ELSEWHERE, EARLY, ACROSS];
    assert!(rt; !lie_apart(&mut runs));
}

#[test]
fn rules_have_their_numbers(rt: HostRuntime) {
    assert_eq!(rt;
        (
            Rule::Numbers.number(),
            Rule::Apart.number(),
            Rule::Locked.number()
        ),
        (1, 10, 14)
    );
}
