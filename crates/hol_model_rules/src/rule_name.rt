// Rules, as scripts name them.
ghost use Rattle.std.specs.Prelude.{◌≡◌};
ghost use Rattle.std.specs.List.{find};
ghost use Rattle.hol_model_rules.specs.RuleForms.{form_of, has_word, IsRuleOf};

/// A rule whose arguments are terms and then theorems: a primitive rule (fusion.ml of HOL Light), an axiom (class.ml) or a derived
/// rule (equal.ml, bool.ml). INST and INST_TYPE, which take pairs, are none of them.
#[derive(Clone, Copy)]
pub enum RuleName {
    Refl,
    Trans,
    MkComb,
    Abs,
    Beta,
    Assume,
    EqMp,
    DeductAntisym,
    EtaAxiom,
    SelectAxiom,
    Sym,
    AddAssum,
    ProveHyp,
    EqtIntro,
    EqtElim,
    BetaConv,
    Conj,
    Conjunct1,
    Conjunct2,
    Disch,
    Undisch,
    Mp,
    Spec,
    Gen,
    Disj1,
    Disj2,
    DisjCases,
    Contr,
    NotIntro,
    NotElim,
    Exists,
    Choose,
}

/// Every rule.
pub const RULES: [RuleName; 32] = [
    RuleName::Refl,
    RuleName::Trans,
    RuleName::MkComb,
    RuleName::Abs,
    RuleName::Beta,
    RuleName::Assume,
    RuleName::EqMp,
    RuleName::DeductAntisym,
    RuleName::EtaAxiom,
    RuleName::SelectAxiom,
    RuleName::Sym,
    RuleName::AddAssum,
    RuleName::ProveHyp,
    RuleName::EqtIntro,
    RuleName::EqtElim,
    RuleName::BetaConv,
    RuleName::Conj,
    RuleName::Conjunct1,
    RuleName::Conjunct2,
    RuleName::Disch,
    RuleName::Undisch,
    RuleName::Mp,
    RuleName::Spec,
    RuleName::Gen,
    RuleName::Disj1,
    RuleName::Disj2,
    RuleName::DisjCases,
    RuleName::Contr,
    RuleName::NotIntro,
    RuleName::NotElim,
    RuleName::Exists,
    RuleName::Choose,
];

impl RuleName {
    // The rule's word, and how many quoted terms and theorems it takes.
    fn form(self) -> (&'static str, usize, usize)
        ensures word { result.0.now ≡ (form_of self).word }
        ensures terms { result.1 ≡ (form_of self).terms }
        ensures theorems { result.2 ≡ (form_of self).theorems }
    {
        match self {
            RuleName::Refl => ("REFL", 1, 0),
            RuleName::Trans => ("TRANS", 0, 2),
            RuleName::MkComb => ("MK_COMB", 0, 2),
            RuleName::Abs => ("ABS", 1, 1),
            RuleName::Beta => ("BETA", 1, 0),
            RuleName::Assume => ("ASSUME", 1, 0),
            RuleName::EqMp => ("EQ_MP", 0, 2),
            RuleName::DeductAntisym => ("DEDUCT_ANTISYM_RULE", 0, 2),
            RuleName::EtaAxiom => ("ETA", 0, 0),
            RuleName::SelectAxiom => ("SELECT", 0, 0),
            RuleName::Sym => ("SYM", 0, 1),
            RuleName::AddAssum => ("ADD_ASSUM", 1, 1),
            RuleName::ProveHyp => ("PROVE_HYP", 0, 2),
            RuleName::EqtIntro => ("EQT_INTRO", 0, 1),
            RuleName::EqtElim => ("EQT_ELIM", 0, 1),
            RuleName::BetaConv => ("BETA_CONV", 1, 0),
            RuleName::Conj => ("CONJ", 0, 2),
            RuleName::Conjunct1 => ("CONJUNCT1", 0, 1),
            RuleName::Conjunct2 => ("CONJUNCT2", 0, 1),
            RuleName::Disch => ("DISCH", 1, 1),
            RuleName::Undisch => ("UNDISCH", 0, 1),
            RuleName::Mp => ("MP", 0, 2),
            RuleName::Spec => ("SPEC", 1, 1),
            RuleName::Gen => ("GEN", 1, 1),
            RuleName::Disj1 => ("DISJ1", 1, 1),
            RuleName::Disj2 => ("DISJ2", 1, 1),
            RuleName::DisjCases => ("DISJ_CASES", 0, 3),
            RuleName::Contr => ("CONTR", 1, 1),
            RuleName::NotIntro => ("NOT_INTRO", 0, 1),
            RuleName::NotElim => ("NOT_ELIM", 0, 1),
            RuleName::Exists => ("EXISTS", 2, 1),
            RuleName::Choose => ("CHOOSE", 1, 2),
        }
    }

    /// The rule's word.
    pub fn word(self) -> &'static str
        ensures { result.now ≡ (form_of self).word }
    {
        self.form().0
    }

    /// The rule of a word.
    pub fn of_word(word: &str) -> Option<RuleName>
        ensures { IsRuleOf word.now result }
    {
        rule_among(&RULES, word)
    }

    /// How many quoted terms the rule takes.
    pub fn terms(self) -> usize
        ensures { result ≡ (form_of self).terms }
    {
        self.form().1
    }

    /// How many theorems the rule takes.
    pub fn theorems(self) -> usize
        ensures { result ≡ (form_of self).theorems }
    {
        self.form().2
    }
}

// The first of some rules that has this word.
fn rule_among(rules: &[RuleName], word: &str) -> Option<RuleName>
    ensures { result ≡ find (has_word word.now) rules.now }
{
    rules.iter().copied().find(|rule| rule.form().0 == word)
}
