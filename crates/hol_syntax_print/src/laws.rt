// Laws on texts. Each function does nothing: its clause is the law's statement, for callers' proofs.
ghost use Rattle.hol_model.specs.Texts.Texts.{TypesReadBack, TermsReadBack};
ghost use Rattle.hol_model.specs.Texts.SequentTexts.{SequentsReadBack};

/// The text of a type reads back as the type.
pub fn types_read_back()
    ensures { TypesReadBack }
{}

/// The text of a term reads back as the term, bound names included.
pub fn terms_read_back()
    ensures { TermsReadBack }
{}

/// The text of a sequent reads back as the sequent.
pub fn sequents_read_back()
    ensures { SequentsReadBack }
{}
