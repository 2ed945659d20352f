// Words that list as much as a command may hold, and one more.
use crate::told::told;
use std::alloc::{AllocError, Global};

// Words before the list, what is listed, the sign between, the words behind it, and how many there may be.
type Row = (
    &'static [&'static str],
    &'static str,
    &'static str,
    &'static [&'static str],
    usize,
);

const ROWS: &[Row] = &[
    (&["synth", "3"], "el", ",", &[], 32),
    (&["synth", "3", "el"], "elect", ";", &[], 64),
    (&["position"], "1", ",", &["max", "votes.soc"], 1_024),
];

// So many of them, with the sign between each two.
fn list(alloc: Global, part: &str, sign: &str, count: usize) -> Result<String, AllocError> {
    let mut list = String::new(alloc);
    for i in 0..count {
        if i > 0 {
            list.push_str(sign)?;
        }
        list.push_str(part)?;
    }
    Ok(list)
}

// Whether the words with such a list are a command.
fn is_command(alloc: Global, row: &Row, count: usize) -> Result<bool, AllocError> {
    let (before, part, sign, behind, _) = row;
    let mut words = Vec::new(alloc);
    for word in *before {
        words.push(word.to_string(alloc)?)?;
    }
    words.push(list(alloc, part, sign, count)?)?;
    for word in *behind {
        words.push(word.to_string(alloc)?)?;
    }
    let text = told(alloc, &words)?;
    Ok(!text.is_empty())
}

#[test]
fn lists_are_as_long_as_they_may_be(rt: HostRuntime) -> Result<(), AllocError> {
    let alloc = rt.alloc();
    for row in ROWS {
        let most = row.4;
        assert!(rt; is_command(alloc, row, most)?, "{} times {}", most, row.1);
        assert!(rt;
            !is_command(alloc, row, most.saturating_add(1))?,
            "one more {}",
            row.1
        );
    }
    Ok(())
}
