// A list with right jumps and with wrong ones, and its listing.
use crate::{Instr, listing, no_two_terms_have_the_same_code, validate};
use std::alloc::{AllocError, Global};
use vir_term::{Leaf, Score};

// The code of `seq(loop(1,min(plurality)),elect)`, with these jumps.
fn sample(alloc: Global, start: usize, exit: usize) -> Result<Vec<Instr>, AllocError> {
    let mut list = Vec::new(alloc);
    list.push(Instr::StartLoop)?;
    list.push(Instr::LoopTest { k: 1, exit })?;
    list.push(Instr::Call(Leaf::Min(Score::Plurality)))?;
    list.push(Instr::LoopBack { start })?;
    list.push(Instr::EndLoop)?;
    list.push(Instr::KeepDomain)?;
    list.push(Instr::FetchDomain)?;
    list.push(Instr::Call(Leaf::Elect))?;
    list.push(Instr::JoinSeq)?;
    Ok(list)
}

// Where the loop goes back to, where it leaves to, and whether that is code.
const JUMPS: &[(usize, usize, bool)] = &[
    (1, 4, true),
    (2, 4, false),
    (0, 4, false),
    (1, 3, false),
    (1, 5, false),
];

#[test]
fn only_right_jumps_are_code(rt: HostRuntime) -> Result<(), AllocError> {
    for (start, exit, valid) in JUMPS {
        let list = sample(rt.alloc(), *start, *exit)?;
        assert!(rt; validate(list).is_some() == *valid);
    }
    let empty = Vec::new(rt.alloc());
    assert!(rt; validate(empty).is_none());
    no_two_terms_have_the_same_code();
    Ok(())
}

const LISTING: &str = "0 start-loop
1 loop-test 1 4
2 call min(plurality)
3 loop-back 1
4 end-loop
5 keep-domain
6 fetch-domain
7 call elect
8 join-seq
";

// The code of `until(2,min(plurality))`, and its listing.
fn until_two(alloc: Global) -> Result<Vec<Instr>, AllocError> {
    let mut list = Vec::new(alloc);
    list.push(Instr::StartLoop)?;
    list.push(Instr::UntilTest { k: 2, exit: 4 })?;
    list.push(Instr::Call(Leaf::Min(Score::Plurality)))?;
    list.push(Instr::LoopBack { start: 1 })?;
    list.push(Instr::EndLoop)?;
    Ok(list)
}

const UNTIL_LISTING: &str = "0 start-loop
1 until-test 2 4
2 call min(plurality)
3 loop-back 1
4 end-loop
";

#[test]
fn the_other_loop_is_listed(rt: HostRuntime) -> Result<(), AllocError> {
    let list = until_two(rt.alloc())?;
    let Some(code) = validate(list) else {
        panic!(rt; "no code");
    };
    let text = listing(rt.alloc(), &code)?;
    assert!(rt; text.as_slice() == UNTIL_LISTING.as_bytes());
    Ok(())
}

#[test]
fn code_is_listed(rt: HostRuntime) -> Result<(), AllocError> {
    let list = sample(rt.alloc(), 1, 4)?;
    if let Some(code) = validate(list) {
        assert!(rt; code.len() == 9 && code.depth() == 2);
        assert!(rt; code.at(8).is_some() && code.at(9).is_none());
        let text = listing(rt.alloc(), &code)?;
        assert!(rt; text.as_slice() == LISTING.as_bytes());
    }
    Ok(())
}
