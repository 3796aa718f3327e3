// What is true of the logs that are written and checked.
ghost use Rattle.holp_commands.specs.LogsChecked.{LogsAreChecked};

/// The log of a run is one that the checker accepts, with the theorems that the run printed as its claims. Nothing is
/// computed: the clause is the law, over what `run` writes and what `check` answers.
pub fn logs_are_checked()
    ensures { LogsAreChecked }
{}
