// Orders of every length at which a ballot holds them in another form.
use crate::answers::{SIZES, file_of};
use std::alloc::{AllocError, Global};
use std::process::Abort;
use vir_profile::SocFile;
use vir_soc::write_soc;

// As many alternatives as stand in a ballot itself, as have a byte each, and as there may be, and one more.
const LENGTHS: &[u16] = &[14, 15, 255, 256, 1_024];

// The alternatives from the last to the first, with commas between.
fn downwards(alloc: Global, alternatives: u16) -> Result<String, AllocError> {
    let mut text = format!(in alloc; "{alternatives}")?;
    for x in 1..alternatives {
        text.push_str(&format!(in alloc; ",{}", alternatives - x)?)?;
    }
    Ok(text)
}

// Whether the file has one line, which lists the alternatives from the last to the first.
fn is_downwards(file: &SocFile, alternatives: u16) -> bool {
    let Some(line) = file.profile().line(0) else {
        return false;
    };
    let mut next = alternatives;
    for i in 0..line.order.len() {
        if line.order.at(i) != next {
            return false;
        }
        next = next.saturating_sub(1);
    }
    line.order.len() == usize::from(alternatives) && file.profile().lines() == 1
}

// Reads such an order in pieces of each size, and writes it.
fn expect_kept(rt: &impl Abort, alloc: Global, alternatives: u16) -> Result<(), AllocError> {
    let order = downwards(alloc, alternatives)?;
    let text = format!(in alloc; "# NUMBER ALTERNATIVES: {alternatives}\n3: {order}\n")?;
    let written = format!(in alloc;
        "# DATA TYPE: soc
# NUMBER ALTERNATIVES: {alternatives}
# NUMBER VOTERS: 3
# NUMBER UNIQUE ORDERS: 1
3: {order}
"
    )?;
    for size in SIZES {
        let file = file_of(rt, alloc, text.as_bytes(), *size);
        assert!(rt; is_downwards(&file, alternatives), "{alternatives}");
        assert!(rt; write_soc(alloc, &file)?.as_slice() == written.as_bytes());
    }
    Ok(())
}

#[test]
fn orders_of_each_length_are_read_and_written(rt: HostRuntime) -> Result<(), AllocError> {
    for alternatives in LENGTHS {
        expect_kept(&rt, rt.alloc(), *alternatives)?;
    }
    Ok(())
}
