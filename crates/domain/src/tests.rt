// What is found with numbers and hints beside it, as calls: 2 comes first, and 1 comes before 3 (docs/RULES.md, 5.1, 11.9, 11.10).
use crate::beside;
use refusals::Refusal;

#[test]
fn numbers_beside_what_is_found(rt: HostRuntime) {
    for (found, with_one_outside) in [
        (Ok(()), Err(Refusal::Number)),
        (Err(Refusal::Number), Err(Refusal::Number)),
        (Err(Refusal::Shape), Err(Refusal::Shape)),
        (Err(Refusal::Backward), Err(Refusal::Number)),
    ] {
        assert!(rt; beside::with_numbers(true, found) == found);
        assert!(rt; beside::with_numbers(false, found) == with_one_outside);
    }
}

#[test]
fn hints_beside_what_is_found(rt: HostRuntime) {
    for (number, found, with_the_hints) in [
        (2, Ok(()), Err(Refusal::Shape)),
        (2, Err(Refusal::Number), Err(Refusal::Shape)),
        (1, Ok(()), Err(Refusal::Number)),
        (1, Err(Refusal::Shape), Err(Refusal::Shape)),
        (1, Err(Refusal::Backward), Err(Refusal::Number)),
    ] {
        assert!(rt; beside::with_lent(number, found) == with_the_hints);
    }
}
