// Claims.

use hol_journal::Rec;

/// A name for a theorem of a recorder.
#[derive(Clone, Copy)]
pub struct Claim<'a> {
    pub name: &'a str,
    pub theorem: &'a Rec,
}
