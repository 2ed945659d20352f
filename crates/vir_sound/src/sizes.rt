// The rules on how many are deferred or rejected. Each law is the contract of a function that does nothing, and
// is named after the rule.
ghost use Rattle.std.specs.Prelude.{codes};
ghost use Rattle.vir_sound.specs.Truth.{IsSound};

/// `pass(k,o)` has `defers(k)`.
#[tactic(auto, using(crate::proofs::SizeRows::defers_leaf_sound))]
pub fn defers_leaf()
    ensures { IsSound 16 (codes "defers-leaf") }
{}

/// `seq(m,n)` has `defers(1)` where m has `ne` and `nb`, and n has `defers(1)`.
#[tactic(auto, using(crate::proofs::SizeRows::defers_seq_one_sound))]
pub fn defers_seq_one()
    ensures { IsSound 17 (codes "defers-seq-one") }
{}

/// `seq(m,n)` has `defers(k)` where both parts have `defers(k)`.
#[tactic(auto, using(crate::proofs::SizeRows::defers_seq_both_sound))]
pub fn defers_seq_both()
    ensures { IsSound 18 (codes "defers-seq-both") }
{}

/// `loop(k,m)` has `defers(k)` where m has `elim(1)` and `ne`.
#[tactic(auto, using(crate::proofs::SizeRows::defers_loop_elim_sound))]
pub fn defers_loop_elim()
    ensures { IsSound 19 (codes "defers-loop-elim") }
{}

/// `loop(1,m)` has `defers(1)` where m has `ne`, `nb` and `decr`.
#[tactic(auto, using(crate::proofs::SizeRows::defers_loop_one_sound))]
pub fn defers_loop_one()
    ensures { IsSound 20 (codes "defers-loop-one") }
{}

/// `drop(k,o)` has `rejects(k)`.
#[tactic(auto, using(crate::proofs::SizeRows::rejects_leaf_sound))]
pub fn rejects_leaf()
    ensures { IsSound 21 (codes "rejects-leaf") }
{}

/// `par(m,n)` has `elim(1)` where m has `ne` and `defers(1)`, n has `rejects(2)`, and m and n are
/// disjoint.
#[tactic(auto, using(crate::proofs::SizeRows::elim_par_left_sound))]
pub fn elim_par_left()
    ensures { IsSound 22 (codes "elim-par-left") }
{}

/// `par(m,n)` has `elim(1)` where n has `ne` and `defers(1)`, m has `rejects(2)`, and m and n are
/// disjoint.
#[tactic(auto, using(crate::proofs::SizeRows::elim_par_right_sound))]
pub fn elim_par_right()
    ensures { IsSound 23 (codes "elim-par-right") }
{}

/// `until(k,m)` has `defers(k)` where m has `elim(1)` and `ne`.
#[tactic(auto, using(crate::proofs::SizeRows::defers_until_elim_sound))]
pub fn defers_until_elim()
    ensures { IsSound 90 (codes "defers-until-elim") }
{}

/// `until(1,m)` has `defers(1)` where m has `ne`, `nb` and `decr`.
#[tactic(auto, using(crate::proofs::SizeRows::defers_until_one_sound))]
pub fn defers_until_one()
    ensures { IsSound 91 (codes "defers-until-one") }
{}
