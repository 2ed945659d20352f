// Words and files, with the status, the text and the line of the call.
use crate::calls::{
    COUNT, DIVIDED, DRILL, ELECT, EMPTY, FIRST_WINS, PLURALITY, SECOND_WINS, SHORT, UNREAD, USAGE,
    expect_call, full_shelf,
};
use std::alloc::AllocError;

// Words, the contents of the files "rule.vir" and "votes.soc", and the status, the output and the
// error line of the call.
type Row = (
    &'static [&'static str],
    &'static [u8],
    &'static [u8],
    u8,
    &'static [u8],
    &'static [u8],
);

const SILENT: &[u8] = b"# NUMBER ALTERNATIVES: 3\n";

const VOTERS: &[u8] =
    b"# NUMBER VOTERS: 10\n# NUMBER ALTERNATIVES: 3\n4: 1,2,3\n3: 2,3,1\n2: 3,2,1\n";

// The same votes, loosely written, and with full metadata.
const LOOSE: &[u8] =
    b"\xEF\xBB\xBF# NUMBER ALTERNATIVES: 03\r\n\r\n 4 :1 ,2,\t3\n3: 2,3,1\n#\n2: 3,2,1";

const BOARD: &[u8] = b"# FILE NAME: 00999-00000001.soc\r
# TITLE: Board, 2020: second round\r
# DESCRIPTION:\r
# DATA TYPE: soc\r
# MODIFICATION TYPE: original\r
# RELATES TO:\r
# RELATED FILES:\r
# PUBLICATION DATE: 2020-01-01\r
# MODIFICATION DATE: 2022-09-16\r
# NUMBER ALTERNATIVES: 3\r
# NUMBER VOTERS: 9\r
# NUMBER UNIQUE ORDERS: 3\r
# ALTERNATIVE NAME 1: Ito, K.: list A\r
# ALTERNATIVE NAME 2: Muller\r
# ALTERNATIVE NAME 3: Ruiz\r
4: 1,2,3\r
3: 2,3,1\r
2: 3,2,1\r
";

const ALL_DEFERRED: &[u8] = b"elected:\nrejected:\ndeferred: 1 2 3\n";

const ALL_ELECTED: &[u8] = b"elected: 1 2 3\nrejected:\ndeferred:\n";

const LISTING: &[&str] = &["listing", "rule.vir"];

const LOOPED: &[u8] = b"r = seq(loop(1,min(plurality)),elect);";

const LISTED: &[u8] = b"0 start-loop
1 loop-test 1 4
2 call min(plurality)
3 loop-back 1
4 end-loop
5 keep-domain
6 fetch-domain
7 call elect
8 join-seq
";

const UNTIL: &[u8] = b"r = until(2,min(plurality));";

const UNTIL_LISTED: &[u8] = b"0 start-loop
1 until-test 2 4
2 call min(plurality)
3 loop-back 1
4 end-loop
";

const DRILLED: &[u8] = b"lines 1 voters 1 alternatives 3
plurality elected: 3
seq(max(borda),elect) elected: 3
seq(max(copeland),elect) elected: 3
seq(loop(1,min(borda)),elect) elected: 3
";

const ROWS: &[Row] = &[
    (COUNT, PLURALITY, DIVIDED, 0, FIRST_WINS, b""),
    (COUNT, b"r = plurality;\n", LOOSE, 0, FIRST_WINS, b""),
    (COUNT, PLURALITY, BOARD, 0, FIRST_WINS, b""),
    (COUNT, b"r = defer;", DIVIDED, 0, ALL_DEFERRED, b""),
    (COUNT, PLURALITY, SILENT, 0, ALL_ELECTED, b""),
    // A refused rule file hides a refused profile.
    (COUNT, b"", SHORT, 3, b"", EMPTY),
    (
        COUNT,
        ELECT,
        SHORT,
        4,
        b"",
        b"profile refused: Short at line 2\n",
    ),
    (
        COUNT,
        ELECT,
        VOTERS,
        4,
        b"",
        b"profile refused: VotersDiffer at line 1\n",
    ),
    (
        COUNT,
        ELECT,
        b"",
        4,
        b"",
        b"profile refused: NoAlternativeCount at line 1\n",
    ),
    (
        COUNT,
        ELECT,
        b"# NUMBER ALTERNATIVES: 2\n18446744073709551615: 1,2\n1: 2,1\n",
        4,
        b"",
        b"profile refused: TooManyVoters at line 3\n",
    ),
    (
        &["count", "other.vir", "votes.soc"],
        ELECT,
        DIVIDED,
        5,
        b"",
        UNREAD,
    ),
    (
        &["count", "rule.vir", "other.soc"],
        ELECT,
        DIVIDED,
        5,
        b"",
        UNREAD,
    ),
    // A refused rule file hides a missing profile.
    (
        &["count", "votes.soc", "other.soc"],
        ELECT,
        DIVIDED,
        3,
        b"",
        b"text refused: BadByte at byte 26\n",
    ),
    (LISTING, LOOPED, DIVIDED, 0, LISTED, b""),
    (LISTING, UNTIL, DIVIDED, 0, UNTIL_LISTED, b""),
    (LISTING, b"", DIVIDED, 3, b"", EMPTY),
    (&["listing", "other.vir"], ELECT, DIVIDED, 5, b"", UNREAD),
    (DRILL, ELECT, DIVIDED, 0, DRILLED, b""),
    (
        &["drill", "00", "0001", "03"],
        ELECT,
        DIVIDED,
        0,
        DRILLED,
        b"",
    ),
    (
        &["drill", "7", "50", "6"],
        ELECT,
        DIVIDED,
        0,
        b"lines 50 voters 50 alternatives 6
plurality elected: 5
seq(max(borda),elect) elected: 5
seq(max(copeland),elect) elected: 5
seq(loop(1,min(borda)),elect) elected: 5
",
        b"",
    ),
    (&["drill", "0", "0", "3"], ELECT, DIVIDED, 2, b"", USAGE),
    (
        &["drill", "0", "100001", "3"],
        ELECT,
        DIVIDED,
        2,
        b"",
        USAGE,
    ),
    (&["drill", "0", "1", "0"], ELECT, DIVIDED, 2, b"", USAGE),
    (&["drill", "0", "1", "129"], ELECT, DIVIDED, 2, b"", USAGE),
    (&["drill", "x", "1", "3"], ELECT, DIVIDED, 2, b"", USAGE),
    (&["drill", "+1", "1", "3"], ELECT, DIVIDED, 2, b"", USAGE),
    (&["drill", "", "1", "3"], ELECT, DIVIDED, 2, b"", USAGE),
    (
        &["drill", "18446744073709551616", "1", "3"],
        ELECT,
        DIVIDED,
        2,
        b"",
        USAGE,
    ),
    (&["drill", "0", "1"], ELECT, DIVIDED, 2, b"", USAGE),
    (&[], ELECT, DIVIDED, 2, b"", USAGE),
    (&["count"], ELECT, DIVIDED, 2, b"", USAGE),
    (&["count", "rule.vir"], ELECT, DIVIDED, 2, b"", USAGE),
    (
        &["count", "rule.vir", "votes.soc", "more"],
        ELECT,
        DIVIDED,
        2,
        b"",
        USAGE,
    ),
    (
        &["tally", "rule.vir", "votes.soc"],
        ELECT,
        DIVIDED,
        2,
        b"",
        USAGE,
    ),
    (&["--help"], ELECT, DIVIDED, 2, b"", USAGE),
];

// Each pair of three votes is won by one of them: 1 against 2, 2 against 3, 3 against 1.
const CYCLE: &[u8] = b"# NUMBER ALTERNATIVES: 3\n1: 1,2,3\n1: 2,3,1\n1: 3,1,2\n";

const ALONE: &[u8] = b"# NUMBER ALTERNATIVES: 1\n";

// As many voters as a profile may have, all of one opinion.
const CROWD: &[u8] = b"# NUMBER ALTERNATIVES: 2\n18446744073709551615: 1,2\n";

const SECOND_LEFT: &[u8] = b"elected:\nrejected: 1 3\ndeferred: 2\n";

const SEQUENTIAL_MAJORITY: &[u8] =
    b"r = seq(loop(1,par(seq(pass(2),seq(rev(plurality),pass(1))),drop(2))),elect);";

// Compositions in as many levels as there may be.
const DEEP: &[u8] = b"r = rev(rev(rev(rev(rev(rev(rev(rev(rev(rev(rev(rev(rev(rev(rev(rev(\
rev(rev(rev(rev(rev(rev(rev(rev(rev(rev(rev(rev(rev(rev(rev(rev(rev(rev(rev(rev(rev(rev(rev(rev(rev(rev(\
rev(rev(rev(rev(rev(rev(rev(rev(rev(rev(rev(rev(rev(rev(rev(rev(rev(rev(rev(rev(rev(elect\
)))))))))))))))))))))))))))))))))))))))))))))))))))))))))))))));";

// A rule file, a profile, and what is printed.
const RULES: &[(&[u8], &[u8], &[u8])] = &[
    (b"r = seq(plurality,elect);", DIVIDED, FIRST_WINS),
    (b"r = seq(defer,plurality);", DIVIDED, FIRST_WINS),
    (b"r = seq(pass(2),plurality);", DIVIDED, SECOND_WINS),
    (b"r = seq(max(copeland),elect);", DIVIDED, SECOND_WINS),
    (b"r = max(borda);", DIVIDED, SECOND_LEFT),
    (b"r = below(borda);", DIVIDED, SECOND_LEFT),
    (
        b"r = seq(loop(1,min(plurality)),elect);",
        DIVIDED,
        SECOND_WINS,
    ),
    (SEQUENTIAL_MAJORITY, DIVIDED, SECOND_WINS),
    (b"r = loop(1,min(borda));", CYCLE, ALL_DEFERRED),
    (
        b"r = until(2,min(plurality));",
        DIVIDED,
        b"elected:\nrejected: 3\ndeferred: 1 2\n",
    ),
    (
        b"r = until(2,drop(2));",
        DIVIDED,
        b"elected:\nrejected: 1 2\ndeferred: 3\n",
    ),
    (
        b"r = loop(2,drop(2));",
        DIVIDED,
        b"elected:\nrejected: 1 2 3\ndeferred:\n",
    ),
    (
        b"r = seq(drop(2),elect);",
        ALONE,
        b"elected:\nrejected: 1\ndeferred:\n",
    ),
    (
        b"r = max(borda);",
        CROWD,
        b"elected:\nrejected: 2\ndeferred: 1\n",
    ),
    (DEEP, DIVIDED, b"elected:\nrejected: 1 2 3\ndeferred:\n"),
    (
        b"# Two names.\r\nfirst = plurality ; # a comment\n\tlast=seq ( defer, first );",
        DIVIDED,
        FIRST_WINS,
    ),
];

// A rule file that is refused, and the line that says why.
const REFUSALS: &[(&[u8], &[u8])] = &[
    (b"", EMPTY),
    (b"r = elect", b"text refused: Unexpected at byte 9\n"),
    (
        b"r = seq(foo,elect);",
        b"text refused: UnknownName at byte 8\n",
    ),
    (b"r = rev(r);", b"text refused: UnknownName at byte 8\n"),
    (b"r = max(elect);", b"text refused: WrongSort at byte 8\n"),
    (b"r = pass(0);", b"text refused: BadNumber at byte 9\n"),
    (
        b"r = pass(1,[2,2]);",
        b"text refused: RepeatedInOrder at byte 14\n",
    ),
    (
        b"r = elect; r = defer;",
        b"text refused: NameTwice at byte 11\n",
    ),
    (
        b"a = seq(elect,elect);b = seq(a,a);c = seq(b,b);d = seq(c,c);e = seq(d,d);f = seq(e,e);g = seq(f,f);",
        b"text refused: TooLarge at byte 86\n",
    ),
];

#[test]
fn each_row_comes_to_what_it_says(rt: HostRuntime) -> Result<(), AllocError> {
    for (words, rule, profile, status, text, line) in ROWS {
        let mut shelf = full_shelf(rt.alloc(), rule, profile)?;
        expect_call(&rt, rt.alloc(), words, &mut shelf, *status, text, line)?;
    }
    Ok(())
}

#[test]
fn each_rule_is_counted(rt: HostRuntime) -> Result<(), AllocError> {
    for (rule, profile, text) in RULES {
        let mut shelf = full_shelf(rt.alloc(), rule, profile)?;
        expect_call(&rt, rt.alloc(), COUNT, &mut shelf, 0, text, b"")?;
    }
    Ok(())
}

#[test]
fn each_refused_rule_names_its_fault(rt: HostRuntime) -> Result<(), AllocError> {
    for (rule, line) in REFUSALS {
        let mut shelf = full_shelf(rt.alloc(), rule, DIVIDED)?;
        expect_call(&rt, rt.alloc(), COUNT, &mut shelf, 3, b"", line)?;
    }
    Ok(())
}

// One composition more than there may be.
#[test]
fn a_rule_that_is_too_deep_is_refused(rt: HostRuntime) -> Result<(), AllocError> {
    let mut rule = Vec::from_slice(rt.alloc(), b"r = ")?;
    for _ in 0..64 {
        rule.extend_from_slice(b"rev(")?;
    }
    rule.extend_from_slice(b"defer")?;
    for _ in 0..64 {
        rule.push(b')')?;
    }
    rule.push(b';')?;
    let mut shelf = full_shelf(rt.alloc(), &rule, DIVIDED)?;
    let line = b"text refused: TooDeep at byte 260\n";
    expect_call(&rt, rt.alloc(), COUNT, &mut shelf, 3, b"", line)
}

// A comment of as many bytes as a rule file may have, and of one more.
#[test]
fn a_rule_file_has_a_greatest_length(rt: HostRuntime) -> Result<(), AllocError> {
    let mut rule = vec![in rt.alloc(); b'#'; 1_048_576]?;
    let mut shelf = full_shelf(rt.alloc(), &rule, DIVIDED)?;
    expect_call(&rt, rt.alloc(), COUNT, &mut shelf, 3, b"", EMPTY)?;
    rule.push(b'#')?;
    let mut shelf = full_shelf(rt.alloc(), &rule, DIVIDED)?;
    let line = b"text refused: TextTooLong at byte 1048576\n";
    expect_call(&rt, rt.alloc(), COUNT, &mut shelf, 3, b"", line)
}
