// Names of stored functions.
ghost use Rattle.std.specs.Prelude.{◌≡◌, ◌≢◌, not};
ghost use Rattle.std.specs.Bool.{OnTrue, OnFalse};
ghost use Rattle.hol_host.specs.Host.{has_room};

use hol_model::HOST_FUNCTIONS_LIMIT;

/// Whether two names are the same.
pub(crate) fn is_same(a: &str, b: &str) -> bool
    ensures same { OnTrue result (a.now ≡ b.now) }
    ensures other { OnFalse result (a.now ≢ b.now) }
{
    a == b
}

/// Whether there are as many functions as there may be, where these stand beside others.
pub(crate) fn is_full(others: usize, count: usize) -> bool
    ensures { result ≡ not (has_room others count) }
{
    HOST_FUNCTIONS_LIMIT <= others || HOST_FUNCTIONS_LIMIT - others <= count
}
