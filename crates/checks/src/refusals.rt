// Refusals as they are printed, each with its number.
use machine::told::Refusal;
use std::test::*;

#[test]
fn each_says_why(rt: HostRuntime) -> Result<(), Fail> {
    let refusals = [
        (Refusal::NotACommand, "1: these bytes are no command"),
        (
            Refusal::Missing,
            "3: there is no such function, parameter or place",
        ),
        (Refusal::NothingBefore, "9: there is nothing to go back to"),
    ];
    for (refusal, said) in refusals {
        let number = u64::from(refusal);
        let printed = format!(in rt.alloc(); "{number}: {refusal}")?;
        assert_eq!(rt; printed.as_str(), said);
    }
    Ok(())
}
