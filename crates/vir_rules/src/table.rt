// The table of rules as the code holds it: it says what the table of `specs/Table.antt` says.
ghost use Rattle.std.specs.Prelude.{◌≡◌, map, true};
ghost use Rattle.vir_rules.specs.Premises.{row_of, is_rule};
ghost use Rattle.vir_rules.specs.Seen.{row_seen};
ghost use Rattle.vir_rules.specs.Table.{table};

use crate::row::Conclusion::{Apart, Has};
use crate::row::Family::*;
use crate::row::Need::{Disj, Of};
use crate::row::Pairing::*;
use crate::row::Part::{M, N, T, U};
use crate::row::Row;
use crate::row::Shape::*;
use crate::row::Wanted::{self, DefersK, Is, RejectsK};
use crate::rule_id::RuleId;
use vir_term::Prop;

const NE: Wanted = Is(Prop::Ne);

const EA: Wanted = Is(Prop::Ea);

const EL: Wanted = Is(Prop::El);

const DEFERS_1: Wanted = Is(Prop::Defers(1));

const REJECTS_1: Wanted = Is(Prop::Rejects(1));

const REJECTS_2: Wanted = Is(Prop::Rejects(2));

const ELIM_1: Wanted = Is(Prop::Elim(1));

const NB: Wanted = Is(Prop::Nb);

const DECR: Wanted = Is(Prop::Decr);

const DLI: Wanted = Is(Prop::Dli);

const IMONO: Wanted = Is(Prop::Imono);

const DIMONO: Wanted = Is(Prop::Dimono);

const DMONO: Wanted = Is(Prop::Dmono);

const MONO: Wanted = Is(Prop::Mono);

const CC: Wanted = Is(Prop::Cc);

const DCC: Wanted = Is(Prop::Dcc);

const CPROG: Wanted = Is(Prop::Cprog);

const CCOMP: Wanted = Is(Prop::Ccomp);

const NEUT: Wanted = Is(Prop::Neut);

static ROWS: [Row; RuleId::COUNT] = [
    Row("ne-leaf", Has(NE, ModuleOf(ElectingNobody)), &[]),
    Row("ne-rev", Has(NE, Rev), &[]),
    Row("ne-seq", Has(NE, Seq), &[Of(NE, M), Of(NE, N)]),
    Row("ne-par", Has(NE, Par), &[Of(NE, M), Of(NE, N)]),
    Row("ne-loop", Has(NE, Loop), &[Of(NE, M)]),
    Row("ea-leaf", Has(EA, ModuleOf(ElectingAll)), &[]),
    Row("ea-seq", Has(EA, Seq), &[Of(EA, M)]),
    Row("ea-par-left", Has(EA, Par), &[Of(EA, M)]),
    Row("ea-par-right", Has(EA, Par), &[Of(EA, N)]),
    Row("el-leaf", Has(EL, ModuleOf(ElectingSome)), &[]),
    Row("el-seq-first", Has(EL, Seq), &[Of(EL, M)]),
    Row("el-seq-second", Has(EL, Seq), &[Of(NB, M), Of(EL, N)]),
    Row("el-par-left", Has(EL, Par), &[Of(EL, M)]),
    Row("el-par-right", Has(EL, Par), &[Of(EL, N)]),
    Row("el-ea", Has(EL, Any), &[Of(EA, T)]),
    Row("defers-leaf", Has(DefersK, PassK), &[]),
    Row(
        "defers-seq-one",
        Has(DEFERS_1, Seq),
        &[Of(NE, M), Of(NB, M), Of(DEFERS_1, N)],
    ),
    Row(
        "defers-seq-both",
        Has(DefersK, Seq),
        &[Of(DefersK, M), Of(DefersK, N)],
    ),
    Row(
        "defers-loop-elim",
        Has(DefersK, LoopK),
        &[Of(ELIM_1, M), Of(NE, M)],
    ),
    Row(
        "defers-loop-one",
        Has(DEFERS_1, LoopOne),
        &[Of(NE, M), Of(NB, M), Of(DECR, M)],
    ),
    Row("rejects-leaf", Has(RejectsK, DropK), &[]),
    Row(
        "elim-par-left",
        Has(ELIM_1, Par),
        &[Of(NE, M), Of(DEFERS_1, M), Of(REJECTS_2, N), Disj(M, N)],
    ),
    Row(
        "elim-par-right",
        Has(ELIM_1, Par),
        &[Of(NE, N), Of(DEFERS_1, N), Of(REJECTS_2, M), Disj(M, N)],
    ),
    Row("nb-leaf", Has(NB, ModuleOf(KeepingSome)), &[]),
    Row("nb-rev", Has(NB, Rev), &[Of(EL, M)]),
    Row("nb-seq", Has(NB, Seq), &[Of(NB, M), Of(NB, N)]),
    Row("nb-par-left", Has(NB, Par), &[Of(NB, M)]),
    Row("nb-par-right", Has(NB, Par), &[Of(NB, N)]),
    Row("nb-loop", Has(NB, Loop), &[Of(NB, M)]),
    Row("nb-el", Has(NB, Any), &[Of(EL, T)]),
    Row("nb-defers", Has(NB, Any), &[Of(NE, T), Of(DEFERS_1, T)]),
    Row("decr-leaf", Has(DECR, ModuleOf(Dropping)), &[]),
    Row("decr-seq", Has(DECR, Seq), &[Of(DECR, M)]),
    Row("decr-elim", Has(DECR, Any), &[Of(ELIM_1, T)]),
    Row("decr-rejects", Has(DECR, Any), &[Of(REJECTS_1, T)]),
    Row("decr-defers", Has(DECR, Any), &[Of(NE, T), Of(DEFERS_1, T)]),
    Row("dli-leaf", Has(DLI, ModuleOf(Unscored)), &[]),
    Row("dli-seq-both", Has(DLI, Seq), &[Of(DLI, M), Of(DLI, N)]),
    Row(
        "dli-seq-one",
        Has(DLI, Seq),
        &[Of(DIMONO, M), Of(NE, N), Of(DEFERS_1, N), Of(DMONO, N)],
    ),
    Row(
        "dli-par",
        Has(DLI, Par),
        &[Disj(M, N), Of(DLI, M), Of(DLI, N)],
    ),
    Row("dli-loop", Has(DLI, Loop), &[Of(DLI, M)]),
    Row("imono-leaf", Has(IMONO, ModuleOf(ElectingSome)), &[]),
    Row("dimono-leaf", Has(DIMONO, ModuleOf(Leading)), &[]),
    Row("dimono-rev", Has(DIMONO, Rev), &[Of(IMONO, M)]),
    Row("dimono-dli", Has(DIMONO, Any), &[Of(DLI, T), Of(NE, T)]),
    Row("dmono-leaf", Has(DMONO, ModuleOf(Eliminating)), &[]),
    Row("dmono-rev", Has(DMONO, Rev), &[Of(MONO, M)]),
    Row(
        "dmono-par",
        Has(DMONO, Par),
        &[Of(NE, M), Of(NE, N), Of(DMONO, M), Of(DMONO, N)],
    ),
    Row("dmono-dli", Has(DMONO, Any), &[Of(DLI, T)]),
    Row("dmono-dimono", Has(DMONO, Any), &[Of(DIMONO, T)]),
    Row(
        "mono-seq-defers",
        Has(MONO, Seq),
        &[Of(DLI, M), Of(NE, M), Of(DEFERS_1, M), Of(EL, N)],
    ),
    Row(
        "mono-seq-ea",
        Has(MONO, Seq),
        &[Of(NE, M), Of(DMONO, M), Of(EA, N)],
    ),
    Row("mono-par", Has(MONO, Par), &[Of(MONO, M), Of(MONO, N)]),
    Row("mono-ne", Has(MONO, Any), &[Of(NE, T)]),
    Row("mono-ea", Has(MONO, Any), &[Of(EA, T)]),
    Row("mono-imono", Has(MONO, Any), &[Of(IMONO, T)]),
    Row("cc-seq-first", Has(CC, Seq), &[Of(CC, M)]),
    Row("cc-seq-dcc", Has(CC, Seq), &[Of(DCC, M), Of(EL, N)]),
    Row(
        "cc-seq-ccomp",
        Has(CC, Seq),
        &[Of(CCOMP, M), Of(NE, M), Of(CC, N)],
    ),
    Row("cc-par", Has(CC, Par), &[Of(CC, M), Of(CC, N)]),
    Row("dcc-leaf", Has(DCC, ModuleOf(Winning)), &[]),
    Row("dcc-rev", Has(DCC, Rev), &[Of(CC, M)]),
    Row(
        "dcc-seq-ccomp",
        Has(DCC, Seq),
        &[Of(CCOMP, M), Of(NE, M), Of(DCC, N)],
    ),
    Row(
        "dcc-seq-first",
        Has(DCC, Seq),
        &[Of(DCC, M), Of(NE, N), Of(NB, N)],
    ),
    Row("dcc-par", Has(DCC, Par), &[Of(DCC, M), Of(DCC, N)]),
    Row("dcc-loop", Has(DCC, LoopOne), &[Of(CPROG, M)]),
    Row("cprog-leaf", Has(CPROG, ModuleOf(Progressing)), &[]),
    Row(
        "cprog-seq-first",
        Has(CPROG, Seq),
        &[Of(CPROG, M), Of(CCOMP, N), Of(NE, N)],
    ),
    Row(
        "cprog-seq-second",
        Has(CPROG, Seq),
        &[Of(CCOMP, M), Of(NE, M), Of(CPROG, N)],
    ),
    Row("cprog-dcc", Has(CPROG, Any), &[Of(DCC, T)]),
    Row("ccomp-leaf", Has(CCOMP, ModuleOf(Deferring)), &[]),
    Row("ccomp-seq", Has(CCOMP, Seq), &[Of(CCOMP, M), Of(CCOMP, N)]),
    Row(
        "ccomp-par",
        Has(CCOMP, Par),
        &[Of(NE, M), Of(NE, N), Of(CCOMP, M), Of(CCOMP, N)],
    ),
    Row("ccomp-loop", Has(CCOMP, Loop), &[Of(CCOMP, M)]),
    Row("ccomp-cprog", Has(CCOMP, Any), &[Of(CPROG, T)]),
    Row("ccomp-cc", Has(CCOMP, Any), &[Of(CC, T)]),
    Row("disj-pass-drop", Apart(PassDrop), &[]),
    Row("disj-drop-pass", Apart(DropPass), &[]),
    Row("disj-seq-left", Apart(SeqLeft), &[Disj(M, U)]),
    Row("disj-seq-right", Apart(SeqRight), &[Disj(U, M)]),
    Row("disj-rev-left", Apart(RevLeft), &[Disj(M, U)]),
    Row("disj-rev-right", Apart(RevRight), &[Disj(U, M)]),
    Row("neut-leaf", Has(NEUT, ModuleOf(Unordered)), &[]),
    Row("neut-rev", Has(NEUT, Rev), &[Of(NEUT, M)]),
    Row("neut-seq", Has(NEUT, Seq), &[Of(NEUT, M), Of(NEUT, N)]),
    Row("neut-par", Has(NEUT, Par), &[Of(NEUT, M), Of(NEUT, N)]),
    Row("neut-loop", Has(NEUT, Loop), &[Of(NEUT, M)]),
    Row("neut-until", Has(NEUT, Until), &[Of(NEUT, M)]),
    Row("ne-until", Has(NE, Until), &[Of(NE, M)]),
    Row(
        "defers-until-elim",
        Has(DefersK, UntilK),
        &[Of(ELIM_1, M), Of(NE, M)],
    ),
    Row(
        "defers-until-one",
        Has(DEFERS_1, UntilOne),
        &[Of(NE, M), Of(NB, M), Of(DECR, M)],
    ),
    Row("nb-until", Has(NB, Until), &[Of(NB, M)]),
    Row("dli-until", Has(DLI, Until), &[Of(DLI, M)]),
    Row("dcc-until", Has(DCC, UntilOne), &[Of(CPROG, M)]),
    Row("ccomp-until", Has(CCOMP, Until), &[Of(CCOMP, M)]),
];

// The rows, in their order: the rules of the table.
fn rows() -> &'static [Row; RuleId::COUNT]
    ensures { map row_seen result.now ≡ table }
{
    &ROWS
}

// The row of a rule.
pub(crate) fn row_of(rule: RuleId) -> Row
    ensures row { row_seen result ≡ row_of rule }
    ensures known { is_rule rule ≡ true }
{
    rows()[rule.number() - 1]
}
