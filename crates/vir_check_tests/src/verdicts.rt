// What is said of derivations.
use crate::trees::{Tree, derivation_of};
use std::test::Fail;
use vir_book::read_book;
use vir_check::Verdict::{Accepted, Refused};
use vir_check::{Verdict, check};
use vir_rules::Unfit::{RuleDoesNotFit, WrongNumberOfPremises};
use vir_rules::{Judgement, Prop};

// A rule, the property that it is to have, a tree that is to derive it, and what is said of the tree.
struct Case {
    text: &'static str,
    prop: Prop,
    tree: Tree,
    verdict: Verdict,
}

const NE_LEAF: Tree = Tree("ne-leaf", &[]);

const NE_REV: Tree = Tree("ne-rev", &[]);

const EL_LEAF: Tree = Tree("el-leaf", &[]);

const EA_LEAF: Tree = Tree("ea-leaf", &[]);

const DEFERS_LEAF: Tree = Tree("defers-leaf", &[]);

const NB_LEAF: Tree = Tree("nb-leaf", &[]);

const DLI_LEAF: Tree = Tree("dli-leaf", &[]);

const DCC_LEAF: Tree = Tree("dcc-leaf", &[]);

const DISJ_PASS_DROP: Tree = Tree("disj-pass-drop", &[]);

// In each turn, of the first two alternatives the one with fewer first places goes.
const DUELS: &str = "r = loop(1,par(seq(pass(2),seq(rev(plurality),pass(1))),drop(2)));";

const DUELS_ELECT: &str =
    "r = seq(loop(1,par(seq(pass(2),seq(rev(plurality),pass(1))),drop(2))),elect);";

// The parts of the body of that loop are disjoint: 2 nodes.
const DISJOINT: Tree = Tree("disj-seq-left", &[DISJ_PASS_DROP]);

// The first of them elects nobody: 5 nodes.
const NE_DUEL: Tree = Tree("ne-seq", &[NE_LEAF, Tree("ne-seq", &[NE_REV, NE_LEAF])]);

// The body elects nobody: 7 nodes.
const NE_BODY: Tree = Tree("ne-par", &[NE_DUEL, NE_LEAF]);

// Its first part defers one: 8 nodes.
const DUEL_DEFERS: Tree = Tree(
    "defers-seq-one",
    &[
        NE_LEAF,
        NB_LEAF,
        Tree(
            "defers-seq-one",
            &[NE_REV, Tree("nb-rev", &[EL_LEAF]), DEFERS_LEAF],
        ),
    ],
);

// The loop defers one: 2 + 5 + 8 + 1 + 2 + 7 = 25 nodes.
const DUELS_DEFER: Tree = Tree(
    "defers-loop-elim",
    &[
        Tree(
            "elim-par-left",
            &[NE_DUEL, DUEL_DEFERS, Tree("rejects-leaf", &[]), DISJOINT],
        ),
        NE_BODY,
    ],
);

// No lift of who is deferred by the loop changes anything: 2 + 2 + 9 + 1 = 14 nodes.
const DUELS_DLI: Tree = Tree(
    "dli-loop",
    &[Tree(
        "dli-par",
        &[
            DISJOINT,
            Tree(
                "dli-seq-both",
                &[
                    DLI_LEAF,
                    Tree(
                        "dli-seq-one",
                        &[
                            Tree("dimono-rev", &[Tree("imono-leaf", &[])]),
                            NE_LEAF,
                            DEFERS_LEAF,
                            Tree("dmono-dli", &[DLI_LEAF]),
                        ],
                    ),
                ],
            ),
            DLI_LEAF,
        ],
    )],
);

const DUELS_NE: Tree = Tree("ne-loop", &[NE_BODY]);

const CASES: &[Case] = &[
    Case {
        text: DUELS,
        prop: Prop::Defers(1),
        tree: DUELS_DEFER,
        verdict: Accepted,
    },
    Case {
        text: "r = par(rev(plurality),defer);",
        prop: Prop::Dli,
        tree: Tree("dli-par", &[DISJ_PASS_DROP, DLI_LEAF, DLI_LEAF]),
        verdict: Refused {
            node: 1,
            why: RuleDoesNotFit,
        },
    },
    Case {
        text: "r = par(rev(plurality),defer);",
        prop: Prop::Dli,
        tree: Tree("dli-par", &[DISJ_PASS_DROP, DLI_LEAF]),
        verdict: Refused {
            node: 0,
            why: WrongNumberOfPremises,
        },
    },
    Case {
        text: "r = loop(2,pass(1));",
        prop: Prop::Defers(2),
        tree: Tree(
            "defers-loop-one",
            &[NE_LEAF, NB_LEAF, Tree("decr-leaf", &[])],
        ),
        verdict: Refused {
            node: 0,
            why: RuleDoesNotFit,
        },
    },
    Case {
        text: "r = seq(max(copeland),elect);",
        prop: Prop::Cc,
        tree: Tree("cc-seq-dcc", &[DCC_LEAF, EL_LEAF]),
        verdict: Accepted,
    },
    Case {
        text: "r = loop(1,min(borda));",
        prop: Prop::Dcc,
        tree: Tree("dcc-loop", &[Tree("cprog-leaf", &[])]),
        verdict: Accepted,
    },
    Case {
        text: "r = until(1,min(borda));",
        prop: Prop::Dcc,
        tree: Tree("dcc-until", &[Tree("cprog-leaf", &[])]),
        verdict: Accepted,
    },
    Case {
        text: "r = until(2,min(borda));",
        prop: Prop::Dcc,
        tree: Tree("dcc-until", &[Tree("cprog-leaf", &[])]),
        verdict: Refused {
            node: 0,
            why: RuleDoesNotFit,
        },
    },
    Case {
        text: "r = until(1,min(borda));",
        prop: Prop::Dcc,
        tree: Tree("dcc-loop", &[Tree("cprog-leaf", &[])]),
        verdict: Refused {
            node: 0,
            why: RuleDoesNotFit,
        },
    },
    Case {
        text: "r = until(3,max(copeland));",
        prop: Prop::Neut,
        tree: Tree("neut-until", &[Tree("neut-leaf", &[])]),
        verdict: Accepted,
    },
    Case {
        text: DUELS_ELECT,
        prop: Prop::Cc,
        tree: Tree("cc-seq-dcc", &[Tree("dcc-loop", &[DCC_LEAF]), EL_LEAF]),
        verdict: Refused {
            node: 2,
            why: RuleDoesNotFit,
        },
    },
    Case {
        text: DUELS_ELECT,
        prop: Prop::Mono,
        tree: Tree(
            "mono-seq-defers",
            &[DUELS_DLI, DUELS_NE, DUELS_DEFER, EL_LEAF],
        ),
        verdict: Accepted,
    },
    // The last node derives `ea` where `el` is wanted. Before it stand the root, 14 nodes, 8 and 25.
    Case {
        text: DUELS_ELECT,
        prop: Prop::Mono,
        tree: Tree(
            "mono-seq-defers",
            &[DUELS_DLI, DUELS_NE, DUELS_DEFER, EA_LEAF],
        ),
        verdict: Refused {
            node: 48,
            why: RuleDoesNotFit,
        },
    },
    // `ne-par` lacks its second premise. Before it stand the root, 14 nodes, and `ne-loop`.
    Case {
        text: DUELS_ELECT,
        prop: Prop::Mono,
        tree: Tree(
            "mono-seq-defers",
            &[
                DUELS_DLI,
                Tree("ne-loop", &[Tree("ne-par", &[NE_DUEL])]),
                DUELS_DEFER,
                EL_LEAF,
            ],
        ),
        verdict: Refused {
            node: 16,
            why: WrongNumberOfPremises,
        },
    },
    Case {
        text: "r = seq(max(copeland),elect);",
        prop: Prop::Mono,
        tree: Tree("mono-seq-ea", &[NE_LEAF, Tree("dmono-leaf", &[]), EA_LEAF]),
        verdict: Accepted,
    },
    Case {
        text: "r = par(plurality,defer);",
        prop: Prop::Dli,
        tree: Tree("dli-par", &[DISJ_PASS_DROP, DLI_LEAF, DLI_LEAF]),
        verdict: Refused {
            node: 1,
            why: RuleDoesNotFit,
        },
    },
];

#[test]
fn derivations_are_accepted_or_refused(rt: HostRuntime) -> Result<(), Fail> {
    let alloc = rt.alloc();
    for case in CASES {
        let book = read_book(alloc, case.text.as_bytes())?;
        let derivation = derivation_of(&rt, alloc, &case.tree)?;
        let term = book.last_rule();
        let verdict = check(
            Judgement::Of {
                prop: case.prop,
                term,
            },
            &derivation,
        );
        assert!(rt; verdict == case.verdict, "{} by {}", case.text, case.tree.0);
    }
    Ok(())
}
