// Laws on the definitions. Each function does nothing: its clause is the law's statement, for callers' proofs.
ghost use Rattle.hol_check.specs.Migration.{MigrationKeepsClaims};

/// An accepted log under the header of the second version is accepted with the same claims, and a log that has that
/// header stays as it is.
pub fn migration_keeps_claims()
    ensures { MigrationKeepsClaims }
{}
