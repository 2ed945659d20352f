// The rules on what a lift of an alternative changes. Each law is the contract of a function that does nothing,
// and is named after the rule.
ghost use Rattle.std.specs.Prelude.{codes};
ghost use Rattle.vir_sound.specs.Truth.{IsSound};

/// `elect`, `defer`, `pass`, `drop` and `plurality` have `dli`.
#[tactic(auto, using(crate::proofs::LiftRows::dli_leaf_sound))]
pub fn dli_leaf()
    ensures { IsSound 37 (codes "dli-leaf") }
{}

/// `seq(m,n)` has `dli` where both parts have `dli`.
#[tactic(auto, using(crate::proofs::LiftRows::dli_seq_both_sound))]
pub fn dli_seq_both()
    ensures { IsSound 38 (codes "dli-seq-both") }
{}

/// `seq(m,n)` has `dli` where m has `dimono`, and n has `ne`, `defers(1)` and `dmono`.
#[tactic(auto, using(crate::proofs::LiftRows::dli_seq_one_sound))]
pub fn dli_seq_one()
    ensures { IsSound 39 (codes "dli-seq-one") }
{}

/// `par(m,n)` has `dli` where m and n are disjoint, m has `dli`, and n has `dli`.
#[tactic(auto, using(crate::proofs::LiftRows::dli_par_sound))]
pub fn dli_par()
    ensures { IsSound 40 (codes "dli-par") }
{}

/// `loop(k,m)` has `dli` where m has `dli`.
#[tactic(auto, using(crate::proofs::LiftRows::dli_loop_sound))]
pub fn dli_loop()
    ensures { IsSound 41 (codes "dli-loop") }
{}

/// `elect` and `plurality` have `imono`.
#[tactic(auto, using(crate::proofs::LiftRows::imono_leaf_sound))]
pub fn imono_leaf()
    ensures { IsSound 42 (codes "imono-leaf") }
{}

/// `max` of `plurality`, `borda`, `copeland` or `condorcet` has `dimono`.
#[tactic(auto, using(crate::proofs::LiftRows::dimono_leaf_sound))]
pub fn dimono_leaf()
    ensures { IsSound 43 (codes "dimono-leaf") }
{}

/// `rev(m)` has `dimono` where m has `imono`.
#[tactic(auto, using(crate::proofs::LiftRows::dimono_rev_sound))]
pub fn dimono_rev()
    ensures { IsSound 44 (codes "dimono-rev") }
{}

/// Each rule has `dimono` where it has `dli` and `ne`.
#[tactic(auto, using(crate::proofs::LiftRows::dimono_dli_sound))]
pub fn dimono_dli()
    ensures { IsSound 45 (codes "dimono-dli") }
{}

/// The four eliminators have `dmono`.
#[tactic(auto, using(crate::proofs::LiftRows::dmono_leaf_sound))]
pub fn dmono_leaf()
    ensures { IsSound 46 (codes "dmono-leaf") }
{}

/// `rev(m)` has `dmono` where m has `mono`.
#[tactic(auto, using(crate::proofs::LiftRows::dmono_rev_sound))]
pub fn dmono_rev()
    ensures { IsSound 47 (codes "dmono-rev") }
{}

/// `par(m,n)` has `dmono` where both parts have `ne` and `dmono`.
#[tactic(auto, using(crate::proofs::LiftRows::dmono_par_sound))]
pub fn dmono_par()
    ensures { IsSound 48 (codes "dmono-par") }
{}

/// Each rule has `dmono` where it has `dli`.
#[tactic(auto, using(crate::proofs::LiftRows::dmono_dli_sound))]
pub fn dmono_dli()
    ensures { IsSound 49 (codes "dmono-dli") }
{}

/// Each rule has `dmono` where it has `dimono`.
#[tactic(auto, using(crate::proofs::LiftRows::dmono_dimono_sound))]
pub fn dmono_dimono()
    ensures { IsSound 50 (codes "dmono-dimono") }
{}

/// `seq(m,n)` has `mono` where m has `dli`, `ne` and `defers(1)`, and n has `el`.
#[tactic(auto, using(crate::proofs::LiftRows::mono_seq_defers_sound))]
pub fn mono_seq_defers()
    ensures { IsSound 51 (codes "mono-seq-defers") }
{}

/// `seq(m,n)` has `mono` where m has `ne` and `dmono`, and n has `ea`.
#[tactic(auto, using(crate::proofs::LiftRows::mono_seq_ea_sound))]
pub fn mono_seq_ea()
    ensures { IsSound 52 (codes "mono-seq-ea") }
{}

/// `par(m,n)` has `mono` where both parts have `mono`.
#[tactic(auto, using(crate::proofs::LiftRows::mono_par_sound))]
pub fn mono_par()
    ensures { IsSound 53 (codes "mono-par") }
{}

/// Each rule has `mono` where it has `ne`.
#[tactic(auto, using(crate::proofs::LiftRows::mono_ne_sound))]
pub fn mono_ne()
    ensures { IsSound 54 (codes "mono-ne") }
{}

/// Each rule has `mono` where it has `ea`.
#[tactic(auto, using(crate::proofs::LiftRows::mono_ea_sound))]
pub fn mono_ea()
    ensures { IsSound 55 (codes "mono-ea") }
{}

/// Each rule has `mono` where it has `imono`.
#[tactic(auto, using(crate::proofs::LiftRows::mono_imono_sound))]
pub fn mono_imono()
    ensures { IsSound 56 (codes "mono-imono") }
{}

/// `until(k,m)` has `dli` where m has `dli`.
#[tactic(auto, using(crate::proofs::LiftRows::dli_until_sound))]
pub fn dli_until()
    ensures { IsSound 93 (codes "dli-until") }
{}
