// The devices of a run.

/// Where a run reads its script from, and where it writes its answers and, where one is wanted, its log.
#[derive(Drop)]
pub struct Devices<R, W, L> {
    pub reader: R,
    pub writer: W,
    pub log: L,
    pub wants_log: bool,
}
