//! Gates: what lanes and workers pass before each thing that they do.

/// A lane passes the gate before each of its deeds, and a worker before each of its jobs. A gate promises nothing: a
/// host may hold up those that pass, to see them in an order of its own.
pub trait Gate: Sync {
    /// Lets through a lane before its deed of that number in the segment, counted from 0; or a worker, whose number
    /// is 8 more than its place among the workers, before the job of that number.
    fn pass(&self, lane: u8, deed: u32);
}

/// The gate that holds up nothing.
#[derive(Clone, Copy, Debug)]
pub struct OpenGate;

impl Gate for OpenGate {
    fn pass(&self, _lane: u8, _deed: u32) {}
}
