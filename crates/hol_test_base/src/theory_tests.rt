// Ten thousand declarations, with ample memory.
use hol_kernel::Theory;
use hol_model::Fault;
use std::alloc::Global;

// What the theory refuses once it has a type `t0` and so on for each number below ten thousand.
fn refusal_when_full(alloc: Global) -> Result<Option<Fault>, Fault> {
    let mut theory = Theory::new(alloc)?;
    for number in 0..10_000u16 {
        let name = format!(in alloc; "t{number}")?;
        theory.new_type(alloc, name.as_str())?;
    }
    Ok(theory.new_type(alloc, "t").err())
}

#[test]
fn ten_thousand_entries(rt: HostRuntime) {
    assert!(rt; refusal_when_full(rt.alloc()) == Ok(Some(Fault::TooLarge)));
}
