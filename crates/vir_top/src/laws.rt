// Laws of statuses: what a user may rely on, of told files and where no count of faults rose. Each follows from the
// clause `due` of the top call. The functions do nothing; their contracts are what is proved of the definitions.
ghost use Rattle.std.specs.Prelude.{◌≡◌, ◌⊎◌, ◌∷◌, ◌++◌, ℕ, List, None, Some};
ghost use Rattle.vir_machine.specs.Uses.{first_unserved};
ghost use Rattle.vir_mean.specs.Meaning.{mean};
ghost use Rattle.vir_outside.specs.Shelf.{Files};
ghost use Rattle.vir_profile.specs.SocFiles.{File};
ghost use Rattle.vir_refute.specs.Cases.{pair};
ghost use Rattle.vir_refute.specs.Judged.{election_of};
ghost use Rattle.vir_refute.specs.Violations.{Violates};
ghost use Rattle.vir_term.specs.declared.leaf.Leaf.{Leaf};
ghost use Rattle.vir_term.specs.declared.leaf.LeafKind.{LeafKind};
ghost use Rattle.vir_term.specs.declared.prop.Prop.{Prop};
ghost use Rattle.vir_term.specs.Tree.{Tree};
ghost use Rattle.vir_top.specs.Printed.{Accepts, AreThere, HasInvalidCert, HasValidCert, IsDueWithoutFault, IsMissing};
ghost use Rattle.vir_top.specs.Printed.{LacksCounter, RefusesManifest, RefusesProfile, RefusesRule, SaysManifest};
ghost use Rattle.vir_top.specs.Printed.{SaysProfile, SaysRule};
ghost use Rattle.vir_words.specs.Command.{batch, check, count, on_profile, on_rule, on_rule_and_profile, refute_pair};
ghost use Rattle.vir_words.specs.Command.{report};
ghost use Rattle.vir_words.specs.declared.command.ProfileWork.{ProfileWork};
ghost use Rattle.vir_words.specs.declared.command.RuleProfileWork.{RuleProfileWork};
ghost use Rattle.vir_words.specs.declared.command.RuleWork.{RuleWork};

/// Where both files are accepted and the bench serves each module of the rule, the status is 0, or memory was
/// wanting. So no call always answers another one.
pub fn accepted_files_are_counted()
    ensures count { (kinds : List (List LeafKind)) (all : Files) (rule profile : List ℕ) (status : ℕ)
        → Accepts kinds all rule profile → IsDueWithoutFault kinds all (count rule profile) status
        → (status ≡ 0) ⊎ (status ≡ 7) }
    ensures report { (kinds : List (List LeafKind)) (all : Files) (rule profile : List ℕ) (status : ℕ)
        → Accepts kinds all rule profile → IsDueWithoutFault kinds all (report rule profile) status
        → (status ≡ 0) ⊎ (status ≡ 7) }
{}

/// Of a certificate the status is 0 where its derivation is valid, and 1 where it isn't, or memory was wanting. And
/// these two statuses have no other cause.
pub fn certificates_are_judged()
    ensures accepted { (kinds : List (List LeafKind)) (all : Files) (name : List ℕ) (status : ℕ)
        → HasValidCert all name → IsDueWithoutFault kinds all (check name) status → (status ≡ 0) ⊎ (status ≡ 7) }
    ensures refused { (kinds : List (List LeafKind)) (all : Files) (name : List ℕ) (status : ℕ)
        → HasInvalidCert all name → IsDueWithoutFault kinds all (check name) status → (status ≡ 1) ⊎ (status ≡ 7) }
    ensures accepted_only { (kinds : List (List LeafKind)) (all : Files) (name : List ℕ)
        → IsDueWithoutFault kinds all (check name) 0 → HasValidCert all name }
    ensures refused_only { (kinds : List (List LeafKind)) (all : Files) (name : List ℕ)
        → IsDueWithoutFault kinds all (check name) 1 → HasInvalidCert all name }
{}

/// Where the rule file has a fault, the status is 3, whatever is to be done with the rule and whatever the profile
/// says, or memory was wanting.
pub fn refused_rules_are_told()
    ensures alone { (kinds : List (List LeafKind)) (all : Files) (rule : List ℕ) (work : RuleWork) (status : ℕ)
        → RefusesRule all rule → IsDueWithoutFault kinds all (on_rule rule work) status → (status ≡ 3) ⊎ (status ≡ 7) }
    ensures before_a_profile { (kinds : List (List LeafKind)) (all : Files) (rule profile : List ℕ)
        (work : RuleProfileWork) (status : ℕ) → RefusesRule all rule
        → IsDueWithoutFault kinds all (on_rule_and_profile rule profile work) status → (status ≡ 3) ⊎ (status ≡ 7) }
    ensures before_two_profiles { (kinds : List (List LeafKind)) (all : Files) (rule first second : List ℕ)
        (prop : Prop) (lifted status : ℕ) → RefusesRule all rule
        → IsDueWithoutFault kinds all (refute_pair rule prop first second lifted) status
        → (status ≡ 3) ⊎ (status ≡ 7) }
    ensures before_a_manifest { (kinds : List (List LeafKind)) (all : Files) (rule manifest : List ℕ) (status : ℕ)
        → RefusesRule all rule → IsDueWithoutFault kinds all (batch rule manifest) status
        → (status ≡ 3) ⊎ (status ≡ 7) }
{}

/// Where the profile has a fault, and the rule file, if one is named, has none, the status is 4, or memory was
/// wanting.
pub fn refused_profiles_are_told()
    ensures alone { (kinds : List (List LeafKind)) (all : Files) (name : List ℕ) (work : ProfileWork) (status : ℕ)
        → RefusesProfile all name → IsDueWithoutFault kinds all (on_profile name work) status
        → (status ≡ 4) ⊎ (status ≡ 7) }
    ensures behind_a_rule { (kinds : List (List LeafKind)) (all : Files) (rule profile : List ℕ)
        (work : RuleProfileWork) (status : ℕ) (term : Tree) → SaysRule all rule term → RefusesProfile all profile
        → IsDueWithoutFault kinds all (on_rule_and_profile rule profile work) status → (status ≡ 4) ⊎ (status ≡ 7) }
    ensures first_of_two { (kinds : List (List LeafKind)) (all : Files) (rule first second : List ℕ) (prop : Prop)
        (lifted status : ℕ) (term : Tree) → SaysRule all rule term → RefusesProfile all first
        → IsDueWithoutFault kinds all (refute_pair rule prop first second lifted) status
        → (status ≡ 4) ⊎ (status ≡ 7) }
    ensures second_of_two { (kinds : List (List LeafKind)) (all : Files) (rule first second : List ℕ) (prop : Prop)
        (lifted status : ℕ) (term : Tree) (file : File) → SaysRule all rule term → SaysProfile all first file
        → RefusesProfile all second → IsDueWithoutFault kinds all (refute_pair rule prop first second lifted) status
        → (status ≡ 4) ⊎ (status ≡ 7) }
{}

/// Where the first file that is named isn't there, or a further one behind those that are accepted, the status is 5, or
/// memory was wanting.
pub fn missing_files_are_told()
    ensures rule { (kinds : List (List LeafKind)) (all : Files) (name : List ℕ) (work : RuleWork) (status : ℕ)
        → IsMissing all name → IsDueWithoutFault kinds all (on_rule name work) status → (status ≡ 5) ⊎ (status ≡ 7) }
    ensures profile { (kinds : List (List LeafKind)) (all : Files) (name : List ℕ) (work : ProfileWork) (status : ℕ)
        → IsMissing all name → IsDueWithoutFault kinds all (on_profile name work) status → (status ≡ 5) ⊎ (status ≡ 7) }
    ensures certificate { (kinds : List (List LeafKind)) (all : Files) (name : List ℕ) (status : ℕ)
        → IsMissing all name → IsDueWithoutFault kinds all (check name) status → (status ≡ 5) ⊎ (status ≡ 7) }
    ensures before_a_profile { (kinds : List (List LeafKind)) (all : Files) (rule profile : List ℕ)
        (work : RuleProfileWork) (status : ℕ) → IsMissing all rule
        → IsDueWithoutFault kinds all (on_rule_and_profile rule profile work) status → (status ≡ 5) ⊎ (status ≡ 7) }
    ensures behind_a_rule { (kinds : List (List LeafKind)) (all : Files) (rule profile : List ℕ)
        (work : RuleProfileWork) (status : ℕ) (term : Tree) → SaysRule all rule term → IsMissing all profile
        → IsDueWithoutFault kinds all (on_rule_and_profile rule profile work) status → (status ≡ 5) ⊎ (status ≡ 7) }
    ensures before_two_profiles { (kinds : List (List LeafKind)) (all : Files) (rule first second : List ℕ)
        (prop : Prop) (lifted status : ℕ) → IsMissing all rule
        → IsDueWithoutFault kinds all (refute_pair rule prop first second lifted) status
        → (status ≡ 5) ⊎ (status ≡ 7) }
    ensures first_of_two { (kinds : List (List LeafKind)) (all : Files) (rule first second : List ℕ) (prop : Prop)
        (lifted status : ℕ) (term : Tree) → SaysRule all rule term → IsMissing all first
        → IsDueWithoutFault kinds all (refute_pair rule prop first second lifted) status
        → (status ≡ 5) ⊎ (status ≡ 7) }
    ensures second_of_two { (kinds : List (List LeafKind)) (all : Files) (rule first second : List ℕ) (prop : Prop)
        (lifted status : ℕ) (term : Tree) (file : File) → SaysRule all rule term → SaysProfile all first file
        → IsMissing all second → IsDueWithoutFault kinds all (refute_pair rule prop first second lifted) status
        → (status ≡ 5) ⊎ (status ≡ 7) }
    ensures before_a_manifest { (kinds : List (List LeafKind)) (all : Files) (rule manifest : List ℕ) (status : ℕ)
        → IsMissing all rule → IsDueWithoutFault kinds all (batch rule manifest) status
        → (status ≡ 5) ⊎ (status ≡ 7) }
{}

/// Where the files are a rule and a profile, and the bench doesn't serve each module of the rule, the status is 8, or
/// memory was wanting.
pub fn unserved_modules_are_told()
    ensures count { (kinds : List (List LeafKind)) (all : Files) (rule profile : List ℕ) (status : ℕ)
        → LacksCounter kinds all rule profile → IsDueWithoutFault kinds all (count rule profile) status
        → (status ≡ 8) ⊎ (status ≡ 7) }
    ensures report { (kinds : List (List LeafKind)) (all : Files) (rule profile : List ℕ) (status : ℕ)
        → LacksCounter kinds all rule profile → IsDueWithoutFault kinds all (report rule profile) status
        → (status ≡ 8) ⊎ (status ≡ 7) }
{}

/// Of a rule and two profiles the status is 0 where the case violates the property, and 1 where it doesn't, or memory
/// was wanting.
pub fn cases_are_judged()
    ensures violated { (kinds : List (List LeafKind)) (all : Files) (rule first second : List ℕ) (prop : Prop)
        (lifted status : ℕ) (term : Tree) (file other : File) → SaysRule all rule term → SaysProfile all first file
        → SaysProfile all second other
        → Violates prop (mean term) (pair (election_of file.profile) (election_of other.profile) lifted)
        → IsDueWithoutFault kinds all (refute_pair rule prop first second lifted) status
        → (status ≡ 0) ⊎ (status ≡ 7) }
    ensures not_violated { (kinds : List (List LeafKind)) (all : Files) (rule first second : List ℕ) (prop : Prop)
        (lifted status : ℕ) (term : Tree) (file other : File) → SaysRule all rule term → SaysProfile all first file
        → SaysProfile all second other
        → (Violates prop (mean term) (pair (election_of file.profile) (election_of other.profile) lifted) → ⊥)
        → IsDueWithoutFault kinds all (refute_pair rule prop first second lifted) status
        → (status ≡ 1) ⊎ (status ≡ 7) }
{}

/// Where a rule is accepted, a batch has status 3 for a fault of its manifest. Where that is accepted too, it has
/// status 8 for a module that the bench doesn't serve, and else 0 where each profile is there, whatever these say, and
/// 5 where one isn't. Or memory was wanting.
pub fn batches_are_counted()
    ensures refused { (kinds : List (List LeafKind)) (all : Files) (rule manifest : List ℕ) (status : ℕ) (term : Tree)
        → SaysRule all rule term → RefusesManifest all manifest
        → IsDueWithoutFault kinds all (batch rule manifest) status → (status ≡ 3) ⊎ (status ≡ 7) }
    ensures unserved { (kinds : List (List LeafKind)) (all : Files) (rule manifest : List ℕ) (status : ℕ)
        (term : Tree) (names : List (List ℕ)) (leaf : Leaf) → SaysRule all rule term
        → SaysManifest all manifest names → first_unserved kinds term ≡ Some leaf
        → IsDueWithoutFault kinds all (batch rule manifest) status → (status ≡ 8) ⊎ (status ≡ 7) }
    ensures counted { (kinds : List (List LeafKind)) (all : Files) (rule manifest : List ℕ) (status : ℕ)
        (term : Tree) (names : List (List ℕ)) → SaysRule all rule term → SaysManifest all manifest names
        → first_unserved kinds term ≡ None → AreThere all names
        → IsDueWithoutFault kinds all (batch rule manifest) status → (status ≡ 0) ⊎ (status ≡ 7) }
    ensures missing { (kinds : List (List LeafKind)) (all : Files) (rule manifest : List ℕ) (status : ℕ)
        (term : Tree) (before behind : List (List ℕ)) (name : List ℕ) → SaysRule all rule term
        → SaysManifest all manifest (before ++ name ∷ behind) → first_unserved kinds term ≡ None
        → AreThere all before → IsMissing all name
        → IsDueWithoutFault kinds all (batch rule manifest) status → (status ≡ 5) ⊎ (status ≡ 7) }
{}
