// What the cookbook's rule files say, as they stand in `specs/Files.antt`. The law is the contract of a function that
// does nothing.
ghost use Rattle.std.specs.Prelude.{◌≡◌, Ok};
ghost use Rattle.vir_book.specs.Books.{rule_of};
ghost use Rattle.vir_cookbook.specs.Cookbook as rule;
ghost use Rattle.vir_cookbook.specs.Files as file;

/// The rule of each rule file of the cookbook is the term that `Cookbook` has under its name.
pub fn rule_files_are_read()
    ensures baldwin { rule_of file.baldwin ≡ Ok rule.baldwin }
    ensures benham { rule_of file.benham ≡ Ok rule.benham }
    ensures borda { rule_of file.borda ≡ Ok rule.borda }
    ensures black { rule_of file.black ≡ Ok rule.black }
    ensures copeland { rule_of file.copeland ≡ Ok rule.copeland }
    ensures copeland_then_borda { rule_of file.copeland_then_borda ≡ Ok rule.copeland_then_borda }
    ensures instant_runoff { rule_of file.instant_runoff ≡ Ok rule.instant_runoff }
    ensures minimax { rule_of file.minimax ≡ Ok rule.minimax }
    ensures nanson_schwartz { rule_of file.nanson_schwartz ≡ Ok rule.nanson_schwartz }
    ensures nanson { rule_of file.nanson ≡ Ok rule.nanson }
    ensures plurality { rule_of file.plurality ≡ Ok rule.plurality }
    ensures plurality_then_elect { rule_of file.plurality_then_elect ≡ Ok rule.plurality_then_elect }
    ensures raynaud { rule_of file.raynaud ≡ Ok rule.raynaud }
    ensures sequential_majority { rule_of file.sequential_majority ≡ Ok rule.sequential_majority }
    ensures shortlist_of_two { rule_of file.shortlist_of_two ≡ Ok rule.shortlist_of_two }
    ensures shortlist { rule_of file.shortlist ≡ Ok rule.shortlist }
    ensures two_candidate_runoff { rule_of file.two_candidate_runoff ≡ Ok rule.two_candidate_runoff }
{}
