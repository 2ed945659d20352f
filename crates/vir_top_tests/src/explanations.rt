// How rules come to their results, and pairs: words and files, and what they come to. The scores were added up by
// hand, and the texts are those of the independent model.
use crate::calls::{DIVIDED, expect_call, full_shelf};
use std::alloc::AllocError;

const FIVE_WAYS: &[u8] = b"# NUMBER ALTERNATIVES: 5\n\
18: 1,4,5,3,2\n12: 2,5,4,3,1\n10: 3,2,5,4,1\n9: 4,3,5,2,1\n4: 5,2,4,3,1\n2: 5,3,4,2,1\n";

const TIED: &[u8] = b"# NUMBER ALTERNATIVES: 4\n5: 2,1,4,3\n5: 4,3,1,2\n1: 3,1,2,4\n";

// Each pair of three votes is won by one of them: 1 against 2, 2 against 3, 3 against 1.
const CYCLE: &[u8] = b"# NUMBER ALTERNATIVES: 3\n1: 1,2,3\n1: 2,3,1\n1: 3,1,2\n";

const NO_LINES: &[u8] = b"# NUMBER ALTERNATIVES: 3\n";

const ALONE: &[u8] = b"# NUMBER ALTERNATIVES: 1\n# ALTERNATIVE NAME 1: a pool\n";

// A rule file, a profile, and how the rule comes to its result.
const EXPLAINED: &[(&[u8], &[u8], &[u8])] = &[
    // instant runoff
    (
        b"r = seq(loop(1,min(plurality)),elect);",
        FIVE_WAYS,
        b"rule seq(loop(1,min(plurality)),elect)\nalternatives 5\nvoters 55\n\nat 2 min(plurality)\nof: 1 2 3 4 5\n\
scores: 1=18 2=12 3=10 4=9 5=6\nelected:\nrejected: 5\ndeferred: 1 2 3 4\n\nat 2 min(plurality)\n\
of: 1 2 3 4\nscores: 1=18 2=16 3=12 4=9\nelected:\nrejected: 4\ndeferred: 1 2 3\n\nat 2 min(plurality)\n\
of: 1 2 3\nscores: 1=18 2=16 3=21\nelected:\nrejected: 2\ndeferred: 1 3\n\nat 2 min(plurality)\nof: 1 3\n\
scores: 1=18 3=37\nelected:\nrejected: 1\ndeferred: 3\n\nat 1 loop(1)\nof: 1 2 3 4 5\nelected:\n\
rejected: 1 2 4 5\ndeferred: 3\n\nat 3 elect\nof: 3\nelected: 3\nrejected:\ndeferred:\n\nat 0 seq\n\
of: 1 2 3 4 5\nelected: 3\nrejected: 1 2 4 5\ndeferred:\n",
    ),
    // Baldwin's rule
    (
        b"r = seq(loop(1,min(borda)),elect);",
        FIVE_WAYS,
        b"rule seq(loop(1,min(borda)),elect)\nalternatives 5\nvoters 55\n\nat 2 min(borda)\nof: 1 2 3 4 5\n\
scores: 1=72 2=101 3=107 4=136 5=134\nelected:\nrejected: 1\ndeferred: 2 3 4 5\n\nat 2 min(borda)\n\
of: 2 3 4 5\nscores: 2=64 3=70 4=99 5=97\nelected:\nrejected: 2\ndeferred: 3 4 5\n\nat 2 min(borda)\n\
of: 3 4 5\nscores: 3=31 4=70 5=64\nelected:\nrejected: 3\ndeferred: 4 5\n\nat 2 min(borda)\nof: 4 5\n\
scores: 4=27 5=28\nelected:\nrejected: 4\ndeferred: 5\n\nat 1 loop(1)\nof: 1 2 3 4 5\nelected:\n\
rejected: 1 2 3 4\ndeferred: 5\n\nat 3 elect\nof: 5\nelected: 5\nrejected:\ndeferred:\n\nat 0 seq\n\
of: 1 2 3 4 5\nelected: 5\nrejected: 1 2 3 4\ndeferred:\n",
    ),
    // Black's rule, where there is no Condorcet winner
    (
        b"r = seq(max(condorcet),seq(max(borda),elect));",
        TIED,
        b"rule seq(max(condorcet),seq(max(borda),elect))\nalternatives 4\nvoters 11\n\nat 1 max(condorcet)\n\
of: 1 2 3 4\nscores: 1=0 2=0 3=0 4=0\nelected:\nrejected:\ndeferred: 1 2 3 4\n\nat 3 max(borda)\n\
of: 1 2 3 4\nscores: 1=17 2=16 3=13 4=20\nelected:\nrejected: 1 2 3\ndeferred: 4\n\nat 4 elect\nof: 4\n\
elected: 4\nrejected:\ndeferred:\n\nat 2 seq\nof: 1 2 3 4\nelected: 4\nrejected: 1 2 3\ndeferred:\n\n\
at 0 seq\nof: 1 2 3 4\nelected: 4\nrejected: 1 2 3\ndeferred:\n",
    ),
    // nobody votes
    (
        b"r = plurality;",
        NO_LINES,
        b"rule plurality\nalternatives 3\nvoters 0\n\nat 0 plurality\nof: 1 2 3\nscores: 1=0 2=0 3=0\n\
elected: 1 2 3\nrejected:\ndeferred:\n",
    ),
    // scores below 0
    (
        b"r = max(copeland);",
        DIVIDED,
        b"rule max(copeland)\nalternatives 3\nvoters 9\n\nat 0 max(copeland)\nof: 1 2 3\n\
scores: 1=-2 2=2 3=0\nelected:\nrejected: 1 3\ndeferred: 2\n",
    ),
    // an empty set is handed on, and a loop asks its body there once
    (
        b"r = seq(plurality,loop(1,max(borda)));",
        DIVIDED,
        b"rule seq(plurality,loop(1,max(borda)))\nalternatives 3\nvoters 9\n\nat 1 plurality\nof: 1 2 3\n\
scores: 1=4 2=3 3=2\nelected: 1\nrejected: 2 3\ndeferred:\n\nat 3 max(borda)\nof:\nscores:\nelected:\n\
rejected:\ndeferred:\n\nat 2 loop(1)\nof:\nelected:\nrejected:\ndeferred:\n\nat 0 seq\nof: 1 2 3\n\
elected: 1\nrejected: 2 3\ndeferred:\n",
    ),
    // a loop that stops below its number
    (
        b"r = until(2,min(plurality));",
        DIVIDED,
        b"rule until(2,min(plurality))\nalternatives 3\nvoters 9\n\nat 1 min(plurality)\nof: 1 2 3\n\
scores: 1=4 2=3 3=2\nelected:\nrejected: 3\ndeferred: 1 2\n\nat 0 until(2)\nof: 1 2 3\nelected:\n\
rejected: 3\ndeferred: 1 2\n",
    ),
    // two side by side in a loop
    (
        b"r = loop(1,par(drop(1),rev(drop(2,[2]))));",
        DIVIDED,
        b"rule loop(1,par(drop(1),rev(drop(2,[2]))))\nalternatives 3\nvoters 9\n\nat 2 drop(1)\nof: 1 2 3\n\
elected:\nrejected: 1\ndeferred: 2 3\n\nat 4 drop(2,[2])\nof: 1 2 3\nelected:\nrejected: 1 2\n\
deferred: 3\n\nat 3 rev\nof: 1 2 3\nelected:\nrejected: 1 2 3\ndeferred:\n\nat 1 par\nof: 1 2 3\n\
elected:\nrejected: 1\ndeferred: 2 3\n\nat 2 drop(1)\nof: 2 3\nelected:\nrejected: 2\ndeferred: 3\n\n\
at 4 drop(2,[2])\nof: 2 3\nelected:\nrejected: 2 3\ndeferred:\n\nat 3 rev\nof: 2 3\nelected:\n\
rejected: 2 3\ndeferred:\n\nat 1 par\nof: 2 3\nelected:\nrejected: 2\ndeferred: 3\n\nat 0 loop(1)\n\
of: 1 2 3\nelected:\nrejected: 1 2\ndeferred: 3\n",
    ),
];

// A profile, and its pairs.
const COMPARED: &[(&[u8], &[u8])] = &[
    // 2 wins against both others
    (
        DIVIDED,
        b"alternatives 3\nvoters 9\nprefer 1: 0 4 4\nprefer 2: 5 0 7\nprefer 3: 5 2 0\ncondorcet winner: 2\n",
    ),
    // nobody wins
    (
        CYCLE,
        b"alternatives 3\nvoters 3\nprefer 1: 0 2 1\nprefer 2: 1 0 2\nprefer 3: 2 1 0\ncondorcet winner: none\n",
    ),
    // nobody votes
    (
        NO_LINES,
        b"alternatives 3\nvoters 0\nprefer 1: 0 0 0\nprefer 2: 0 0 0\nprefer 3: 0 0 0\ncondorcet winner: none\n",
    ),
    // one alternative, with its name
    (
        ALONE,
        b"alternatives 1\nvoters 0\nname 1: a pool\nprefer 1: 0\ncondorcet winner: 1\n",
    ),
];

#[test]
fn each_rule_is_explained(rt: HostRuntime) -> Result<(), AllocError> {
    let words = &["explain", "rule.vir", "votes.soc"];
    for (rule, profile, text) in EXPLAINED {
        let mut shelf = full_shelf(rt.alloc(), rule, profile)?;
        expect_call(&rt, rt.alloc(), words, &mut shelf, 0, text, b"")?;
    }
    Ok(())
}

#[test]
fn each_profile_is_compared(rt: HostRuntime) -> Result<(), AllocError> {
    let words = &["pairs", "votes.soc"];
    for (profile, text) in COMPARED {
        let mut shelf = full_shelf(rt.alloc(), b"", profile)?;
        expect_call(&rt, rt.alloc(), words, &mut shelf, 0, text, b"")?;
    }
    Ok(())
}
