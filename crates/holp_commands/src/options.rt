// How a run is told.

/// Whether refusals are explained on standard error, whether goals are laid out, and whether commands are told by records in place
/// of what a run prints.
#[derive(Clone, Copy)]
pub(crate) struct Options {
    pub(crate) explains: bool,
    pub(crate) shows_goals: bool,
    pub(crate) tells_records: bool,
}
