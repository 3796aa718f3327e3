// What stays of a library while its theory grows.
ghost use Rattle.hol_script_session.specs.SessionState.{LibrariesGrow};

use hol_journal::journals_grow;
use hol_prelude::logic_stays;
use hol_taut_laws::laws_stay;

/// What a recorder has made stays its own. Nothing is computed: the clause is the law, for callers' proofs.
pub fn libraries_grow()
    ensures { LibrariesGrow }
{
    journals_grow();
    logic_stays();
    laws_stay();
}
