// The rules on which terms are disjoint. Each law is the contract of a function that does nothing, and is named
// after the rule.
ghost use Rattle.std.specs.Prelude.{codes};
ghost use Rattle.vir_sound.specs.Truth.{IsSound};

/// `pass(k,o)` and `drop(k,o)` are disjoint.
#[tactic(auto, using(crate::proofs::DisjointRows::disj_pass_drop_sound))]
pub fn disj_pass_drop()
    ensures { IsSound 77 (codes "disj-pass-drop") }
{}

/// `drop(k,o)` and `pass(k,o)` are disjoint.
#[tactic(auto, using(crate::proofs::DisjointRows::disj_drop_pass_sound))]
pub fn disj_drop_pass()
    ensures { IsSound 78 (codes "disj-drop-pass") }
{}

/// `seq(m,n)` is disjoint from t where m is.
#[tactic(auto, using(crate::proofs::DisjointRows::disj_seq_left_sound))]
pub fn disj_seq_left()
    ensures { IsSound 79 (codes "disj-seq-left") }
{}

/// t is disjoint from `seq(m,n)` where it is disjoint from m.
#[tactic(auto, using(crate::proofs::DisjointRows::disj_seq_right_sound))]
pub fn disj_seq_right()
    ensures { IsSound 80 (codes "disj-seq-right") }
{}

/// `rev(m)` is disjoint from t where m is.
#[tactic(auto, using(crate::proofs::DisjointRows::disj_rev_left_sound))]
pub fn disj_rev_left()
    ensures { IsSound 81 (codes "disj-rev-left") }
{}

/// t is disjoint from `rev(m)` where it is disjoint from m.
#[tactic(auto, using(crate::proofs::DisjointRows::disj_rev_right_sound))]
pub fn disj_rev_right()
    ensures { IsSound 82 (codes "disj-rev-right") }
{}
