// The names of the equations, and their laws.
use vir_simplify::Equation::{self, *};
use vir_simplify::laws;

const NAMES: &[(Equation, &str)] = &[
    (SeqDeferLeft, "seq-defer-left"),
    (SeqDeferRight, "seq-defer-right"),
    (SeqElect, "seq-elect"),
    (SeqPlurality, "seq-plurality"),
    (SeqNobody, "seq-nobody"),
    (RevElect, "rev-elect"),
    (RevRev, "rev-rev"),
    (ParSame, "par-same"),
    (ParElectLeft, "par-elect-left"),
    (ParElectRight, "par-elect-right"),
    (ParNobodyLeft, "par-nobody-left"),
    (ParNobodyRight, "par-nobody-right"),
    (LoopDefer, "loop-defer"),
    (LoopLoop, "loop-loop"),
    (UntilDefer, "until-defer"),
    (UntilUntil, "until-until"),
    (SeqAssocRight, "seq-assoc-right"),
    (SeqAssocLeft, "seq-assoc-left"),
];

#[test]
fn equations_have_names(rt: HostRuntime) {
    for (equation, name) in NAMES {
        assert!(rt; equation.name() == *name);
    }
}

#[test]
fn laws_can_be_called() {
    laws::seq_defer_left();
    laws::seq_defer_right();
    laws::seq_elect();
    laws::seq_plurality();
    laws::seq_nobody();
    laws::rev_elect();
    laws::rev_rev();
    laws::par_same();
    laws::par_elect_left();
    laws::par_elect_right();
    laws::par_nobody_left();
    laws::par_nobody_right();
    laws::loop_defer();
    laws::loop_loop();
    laws::until_defer();
    laws::until_until();
    laws::seq_assoc_right();
    laws::seq_assoc_left();
}

#[test]
fn laws_of_steps_can_be_called() {
    laws::equations_are_true();
    laws::most_equations_make_terms_smaller();
    laws::steps_keep_the_meaning();
    laws::replay_is_unique();
    laws::simplification_ends();
    laws::simplification_is_unique();
    laws::places_are_numbered_in_preorder();
}
