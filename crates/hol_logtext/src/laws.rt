// Laws on the definitions. Each function does nothing: its clause is the law's statement, for callers' proofs.
ghost use Rattle.hol_logtext.specs.Laws.{ReadingIsExact, LogsReadBack};
ghost use Rattle.hol_logtext.specs.SmallLogs.{SmallLogs};

/// A text is read as the line whose text it is; so what is written for a line is read as that line.
pub fn reading_is_exact()
    ensures { ReadingIsExact }
{}

/// The bytes of lines that can be written are read as these lines, one after another; so where the lines are an accepted
/// log, their bytes are one.
pub fn logs_read_back()
    ensures { LogsReadBack }
{}

/// Small logs are accepted with their claims, or refused at the line and for the cause that they should be.
pub fn small_logs()
    ensures { SmallLogs }
{}
