use id_source::SourceFault;

/// How a run ended.
#[derive(Drop)]
pub enum Ending {
    /// Nothing is in flight, and there was no fault.
    Quiet,
    /// Something is in flight for an element at its step limit.
    Stopped,
    /// This fault was met.
    Fault(SourceFault),
}
