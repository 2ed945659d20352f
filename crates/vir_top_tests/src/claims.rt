// What is proved, checked and found: certificates, the faults of their texts, and first rules.
use crate::calls::{DIVIDED, ELECT, EMPTY, UNREAD, USAGE, expect_call, full_shelf};
use std::alloc::{AllocError, Global};
use std::process::Abort;

// Words, the contents of the file "rule.vir", and the status, the output and the error line of the call.
type Row = (
    &'static [&'static str],
    &'static [u8],
    u8,
    &'static [u8],
    &'static [u8],
);

const COPELAND: &[u8] = b"r = seq(max(copeland),elect);";

const RUNOFF: &[u8] = b"r = seq(loop(1,min(plurality)),elect);";

const MONO: &[u8] =
    b"virage-certificate 1\nterm seq(max(copeland),elect)\nproperty mono\nderivation \
mono-seq-ea(ne-leaf,dmono-leaf,ea-leaf)\n";

const NEUTRAL: &[u8] =
    b"virage-certificate 2\nterm seq(max(copeland),elect)\nproperty neut\nderivation neut-seq(neut-leaf,neut-leaf)\n";

const UNTIL: &[u8] =
    b"virage-certificate 2\nterm until(1,min(borda))\nproperty dcc\nderivation dcc-until(cprog-leaf)\n";

const RUNOFF_UNDERIVED: &[u8] = b"underived mono
- mono-seq-defers 1 dli of loop(1,min(plurality))
- mono-seq-ea 2 dmono of loop(1,min(plurality))
- mono-ne 1 ne of seq(loop(1,min(plurality)),elect)
- mono-ea 1 ea of seq(loop(1,min(plurality)),elect)
- mono-imono 1 imono of seq(loop(1,min(plurality)),elect)
";

const PROOFS: &[Row] = &[
    (&["prove", "rule.vir", "mono"], COPELAND, 0, MONO, b""),
    (&["prove", "rule.vir", "neut"], COPELAND, 0, NEUTRAL, b""),
    (
        &["prove", "rule.vir", "dcc"],
        b"r = until(1,min(borda));",
        0,
        UNTIL,
        b"",
    ),
    (
        &["prove", "rule.vir", "mono"],
        RUNOFF,
        1,
        RUNOFF_UNDERIVED,
        b"",
    ),
    (
        &["prove", "rule.vir", "neut"],
        b"r = pass(1);",
        1,
        b"underived neut\n- no rule\n",
        b"",
    ),
    (&["prove", "rule.vir", "mono"], b"", 3, b"", EMPTY),
    (&["prove", "other.vir", "mono"], ELECT, 5, b"", UNREAD),
    (&["prove", "rule.vir", "monotone"], ELECT, 2, b"", USAGE),
    (&["prove", "rule.vir", "defers"], ELECT, 2, b"", USAGE),
    (&["prove", "rule.vir", "defers(0)"], ELECT, 2, b"", USAGE),
    (&["prove", "rule.vir", "defers(01)"], ELECT, 2, b"", USAGE),
    (&["prove", "rule.vir"], ELECT, 2, b"", USAGE),
];

const CHECK: &[&str] = &["check", "rule.vir"];

const ACCEPTED: &[u8] = b"accepted\n";

const NO_RULE: &[u8] = b"refused node 1: RuleDoesNotFit\n";

const CHECKS: &[Row] = &[
    (CHECK, MONO, 0, ACCEPTED, b""),
    (CHECK, NEUTRAL, 0, ACCEPTED, b""),
    (CHECK, UNTIL, 0, ACCEPTED, b""),
    (
        CHECK,
        b"virage-certificate 1\nterm par(rev(plurality),defer)\nproperty dli\nderivation \
dli-par(disj-pass-drop,dli-leaf,dli-leaf)\n",
        1,
        NO_RULE,
        b"",
    ),
    (
        CHECK,
        b"virage-certificate 1\nterm par(rev(plurality),defer)\nproperty dli\nderivation \
dli-par(disj-pass-drop,dli-leaf)\n",
        1,
        b"refused node 0: WrongNumberOfPremises\n",
        b"",
    ),
    (
        CHECK,
        b"virage-certificate 1\nterm loop(2,pass(1))\nproperty defers(2)\nderivation \
defers-loop-elim(defers-leaf,ne-leaf)\n",
        1,
        NO_RULE,
        b"",
    ),
    (CHECK, b"", 3, b"", b"text refused: BadHeader at byte 0\n"),
    (
        CHECK,
        b"virage-certificate 1\nterm until(1,defer)\nproperty dli\nderivation dli-leaf\n",
        3,
        b"",
        b"text refused: UnknownName at byte 26\n",
    ),
    (&["check", "other.cert"], MONO, 5, b"", UNREAD),
    (&["check"], MONO, 2, b"", USAGE),
];

// The certificate of `mono`, in parts.
const HEADER: &[u8] = b"virage-certificate 1\nterm ";

const TERM: &[u8] = b"seq(max(copeland),elect)";

const PROPERTY: &[u8] = b"\nproperty ";

const DERIVATION: &[u8] = b"\nderivation ";

const MONO_DERIVED: &[u8] = b"mono-seq-ea(ne-leaf,dmono-leaf,ea-leaf)";

// Another property in its place, and the line that says what is wrong.
const OTHER_PROPERTIES: &[(&[u8], &[u8])] = &[
    (b"monotone", b"text refused: UnknownName at byte 60\n"),
    (
        b"mono(1)",
        b"text refused: WrongCountOfArguments at byte 60\n",
    ),
    (
        b"defers",
        b"text refused: WrongCountOfArguments at byte 60\n",
    ),
    (b"defers(0)", b"text refused: BadNumber at byte 67\n"),
    (b"defers(elect)", b"text refused: WrongSort at byte 67\n"),
];

// So many revisions of `elect` in place of the term, and the line.
const NESTED: &[(usize, &[u8])] = &[
    (64, b"text refused: TooDeep at byte 282\n"),
    (81, b"text refused: TooDeep at byte 349\n"),
];

const SYNTHESES: &[Row] = &[
    (
        &["synth", "3", "cc,mono,el"],
        ELECT,
        0,
        b"found seq(max(copeland),elect)
holds cc cc-seq-dcc(dcc-leaf,el-leaf)
holds mono mono-seq-ea(ne-leaf,dmono-leaf,ea-leaf)
holds el el-seq-second(nb-leaf,el-leaf)
",
        b"",
    ),
    (
        &["synth", "3", "el,mono", "elect"],
        ELECT,
        0,
        b"found elect\nholds el el-leaf\nholds mono mono-ea(ea-leaf)\n",
        b"",
    ),
    (&["synth", "9", "ne,el"], ELECT, 1, b"none up to 9\n", b""),
    (&["synth", "16", "el"], ELECT, 2, b"", USAGE),
    (&["synth", "0", "el"], ELECT, 2, b"", USAGE),
    (&["synth", "3", "el,", "elect"], ELECT, 2, b"", USAGE),
    (&["synth", "3", "el", "elect;"], ELECT, 2, b"", USAGE),
    (&["synth", "3", "el", "pass(1, [2])"], ELECT, 2, b"", USAGE),
    (
        &["synth", "3", "el", "seq(elect,elect)"],
        ELECT,
        2,
        b"",
        USAGE,
    ),
];

// Each row comes to what it says.
fn expect_rows(rt: &impl Abort, alloc: Global, rows: &[Row]) -> Result<(), AllocError> {
    for (words, rule, status, text, line) in rows {
        let mut shelf = full_shelf(alloc, rule, DIVIDED)?;
        expect_call(rt, alloc, words, &mut shelf, *status, text, line)?;
    }
    Ok(())
}

#[test]
fn rules_are_proved_to_have_properties(rt: HostRuntime) -> Result<(), AllocError> {
    expect_rows(&rt, rt.alloc(), PROOFS)
}

#[test]
fn certificates_are_checked(rt: HostRuntime) -> Result<(), AllocError> {
    expect_rows(&rt, rt.alloc(), CHECKS)
}

// A certificate that is refused as a text.
fn expect_fault(
    rt: &impl Abort,
    alloc: Global,
    parts: &[&[u8]],
    line: &[u8],
) -> Result<(), AllocError> {
    let mut text = Vec::new(alloc);
    for part in parts {
        text.extend_from_slice(part)?;
    }
    let mut shelf = full_shelf(alloc, &text, DIVIDED)?;
    expect_call(rt, alloc, CHECK, &mut shelf, 3, b"", line)
}

#[test]
fn properties_of_certificates_are_judged(rt: HostRuntime) -> Result<(), AllocError> {
    for (property, line) in OTHER_PROPERTIES {
        let parts: [&[u8]; 7] = [
            HEADER,
            TERM,
            PROPERTY,
            *property,
            DERIVATION,
            MONO_DERIVED,
            b"\n",
        ];
        expect_fault(&rt, rt.alloc(), &parts, line)?;
    }
    Ok(())
}

#[test]
fn texts_of_certificates_are_judged(rt: HostRuntime) -> Result<(), AllocError> {
    expect_fault(
        &rt,
        rt.alloc(),
        &[MONO, b"x"],
        b"text refused: TrailingText at byte 116\n",
    )?;
    expect_fault(
        &rt,
        rt.alloc(),
        &[&MONO[..51]],
        b"text refused: Unexpected at byte 51\n",
    )?;
    let parts: [&[u8]; 6] = [
        HEADER,
        TERM,
        PROPERTY,
        b"mono",
        DERIVATION,
        b"mono-seq-xx(ne-leaf,dmono-leaf,ea-leaf)",
    ];
    expect_fault(
        &rt,
        rt.alloc(),
        &parts,
        b"text refused: UnknownRule at byte 76\n",
    )
}

// So many of a beginning round a middle, each closed.
fn nested(
    alloc: Global,
    beginning: &[u8],
    count: usize,
    middle: &[u8],
) -> Result<Vec<u8>, AllocError> {
    let mut text = Vec::new(alloc);
    for _ in 0..count {
        text.extend_from_slice(beginning)?;
    }
    text.extend_from_slice(middle)?;
    for _ in 0..count {
        text.push(b')')?;
    }
    Ok(text)
}

#[test]
fn nesting_has_its_limits(rt: HostRuntime) -> Result<(), AllocError> {
    for (count, line) in NESTED {
        let term = nested(rt.alloc(), b"rev(", *count, b"elect")?;
        expect_fault(
            &rt,
            rt.alloc(),
            &[HEADER, &term, PROPERTY, b"mono", DERIVATION, MONO_DERIVED],
            line,
        )?;
    }
    let derivation = nested(rt.alloc(), b"ea-seq(", 256, b"ea-leaf")?;
    let parts: [&[u8]; 6] = [
        HEADER,
        TERM,
        PROPERTY,
        b"mono",
        DERIVATION,
        derivation.as_slice(),
    ];
    expect_fault(
        &rt,
        rt.alloc(),
        &parts,
        b"text refused: TooDeep at byte 1868\n",
    )
}

#[test]
fn first_rules_are_found(rt: HostRuntime) -> Result<(), AllocError> {
    expect_rows(&rt, rt.alloc(), SYNTHESES)
}
