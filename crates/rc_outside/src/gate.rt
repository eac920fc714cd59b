/// What a worker passes before it plays a match. A gate answers nothing, so a caller's results
/// cannot depend on it.
pub trait Gate: Sync {
    /// Lets a worker enter that is about to play match `m`.
    fn enter(&self, m: u32);
}

/// A gate that lets everybody in.
#[derive(Clone, Copy, Debug, Default, PartialEq, Eq, Hash)]
pub struct OpenGate;

impl Gate for OpenGate {
    fn enter(&self, _m: u32) {}
}
