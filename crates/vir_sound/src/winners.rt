// The rules on what becomes of a Condorcet winner. Each law is the contract of a function that does nothing,
// and is named after the rule.
ghost use Rattle.std.specs.Prelude.{codes};
ghost use Rattle.vir_sound.specs.Truth.{IsSound};

/// `seq(m,n)` has `cc` where m has `cc`.
#[tactic(auto, using(crate::proofs::WinnerRows::cc_seq_first_sound))]
pub fn cc_seq_first()
    ensures { IsSound 57 (codes "cc-seq-first") }
{}

/// `seq(m,n)` has `cc` where m has `dcc`, and n has `el`.
#[tactic(auto, using(crate::proofs::WinnerRows::cc_seq_dcc_sound))]
pub fn cc_seq_dcc()
    ensures { IsSound 58 (codes "cc-seq-dcc") }
{}

/// `seq(m,n)` has `cc` where m has `ccomp` and `ne`, and n has `cc`.
#[tactic(auto, using(crate::proofs::WinnerRows::cc_seq_ccomp_sound))]
pub fn cc_seq_ccomp()
    ensures { IsSound 59 (codes "cc-seq-ccomp") }
{}

/// `par(m,n)` has `cc` where both parts have `cc`.
#[tactic(auto, using(crate::proofs::WinnerRows::cc_par_sound))]
pub fn cc_par()
    ensures { IsSound 60 (codes "cc-par") }
{}

/// `max` of `copeland`, `minimax` or `condorcet` has `dcc`.
#[tactic(auto, using(crate::proofs::WinnerRows::dcc_leaf_sound))]
pub fn dcc_leaf()
    ensures { IsSound 61 (codes "dcc-leaf") }
{}

/// `rev(m)` has `dcc` where m has `cc`.
#[tactic(auto, using(crate::proofs::WinnerRows::dcc_rev_sound))]
pub fn dcc_rev()
    ensures { IsSound 62 (codes "dcc-rev") }
{}

/// `seq(m,n)` has `dcc` where m has `ccomp` and `ne`, and n has `dcc`.
#[tactic(auto, using(crate::proofs::WinnerRows::dcc_seq_ccomp_sound))]
pub fn dcc_seq_ccomp()
    ensures { IsSound 63 (codes "dcc-seq-ccomp") }
{}

/// `seq(m,n)` has `dcc` where m has `dcc`, and n has `ne` and `nb`.
#[tactic(auto, using(crate::proofs::WinnerRows::dcc_seq_first_sound))]
pub fn dcc_seq_first()
    ensures { IsSound 64 (codes "dcc-seq-first") }
{}

/// `par(m,n)` has `dcc` where both parts have `dcc`.
#[tactic(auto, using(crate::proofs::WinnerRows::dcc_par_sound))]
pub fn dcc_par()
    ensures { IsSound 65 (codes "dcc-par") }
{}

/// `loop(1,m)` has `dcc` where m has `cprog`.
#[tactic(auto, using(crate::proofs::WinnerRows::dcc_loop_sound))]
pub fn dcc_loop()
    ensures { IsSound 66 (codes "dcc-loop") }
{}

/// `min`, `below` and `upto` of `borda`, `copeland`, `minimax` or `condorcet` have `cprog`.
#[tactic(auto, using(crate::proofs::WinnerRows::cprog_leaf_sound))]
pub fn cprog_leaf()
    ensures { IsSound 67 (codes "cprog-leaf") }
{}

/// `seq(m,n)` has `cprog` where m has `cprog`, and n has `ccomp` and `ne`.
#[tactic(auto, using(crate::proofs::WinnerRows::cprog_seq_first_sound))]
pub fn cprog_seq_first()
    ensures { IsSound 68 (codes "cprog-seq-first") }
{}

/// `seq(m,n)` has `cprog` where m has `ccomp` and `ne`, and n has `cprog`.
#[tactic(auto, using(crate::proofs::WinnerRows::cprog_seq_second_sound))]
pub fn cprog_seq_second()
    ensures { IsSound 69 (codes "cprog-seq-second") }
{}

/// Each rule has `cprog` where it has `dcc`.
#[tactic(auto, using(crate::proofs::WinnerRows::cprog_dcc_sound))]
pub fn cprog_dcc()
    ensures { IsSound 70 (codes "cprog-dcc") }
{}

/// `defer` has `ccomp`.
#[tactic(auto, using(crate::proofs::WinnerRows::ccomp_leaf_sound))]
pub fn ccomp_leaf()
    ensures { IsSound 71 (codes "ccomp-leaf") }
{}

/// `seq(m,n)` has `ccomp` where both parts have `ccomp`.
#[tactic(auto, using(crate::proofs::WinnerRows::ccomp_seq_sound))]
pub fn ccomp_seq()
    ensures { IsSound 72 (codes "ccomp-seq") }
{}

/// `par(m,n)` has `ccomp` where both parts have `ne` and `ccomp`.
#[tactic(auto, using(crate::proofs::WinnerRows::ccomp_par_sound))]
pub fn ccomp_par()
    ensures { IsSound 73 (codes "ccomp-par") }
{}

/// `loop(k,m)` has `ccomp` where m has `ccomp`.
#[tactic(auto, using(crate::proofs::WinnerRows::ccomp_loop_sound))]
pub fn ccomp_loop()
    ensures { IsSound 74 (codes "ccomp-loop") }
{}

/// Each rule has `ccomp` where it has `cprog`.
#[tactic(auto, using(crate::proofs::WinnerRows::ccomp_cprog_sound))]
pub fn ccomp_cprog()
    ensures { IsSound 75 (codes "ccomp-cprog") }
{}

/// Each rule has `ccomp` where it has `cc`.
#[tactic(auto, using(crate::proofs::WinnerRows::ccomp_cc_sound))]
pub fn ccomp_cc()
    ensures { IsSound 76 (codes "ccomp-cc") }
{}

/// `until(1,m)` has `dcc` where m has `cprog`.
#[tactic(auto, using(crate::proofs::WinnerRows::dcc_until_sound))]
pub fn dcc_until()
    ensures { IsSound 94 (codes "dcc-until") }
{}

/// `until(k,m)` has `ccomp` where m has `ccomp`.
#[tactic(auto, using(crate::proofs::WinnerRows::ccomp_until_sound))]
pub fn ccomp_until()
    ensures { IsSound 95 (codes "ccomp-until") }
{}
