//! A step of a reply as C is told it.

/// A step of a raise with its raises upwards. What its kind doesn't have is 0.
#[repr(C)]
#[derive(Clone, Copy, PartialEq, Eq, Debug)]
pub struct SpinStep {
    /// The number of its kind: 1 a handler runs, 2 its act gives a result, 3 it sends bytes, 4 a raise upwards begins,
    /// 5 the last one that hasn't ended ends, 6 the act drops a packet, 7 a handler is left to a job.
    pub kind: u32,
    /// The event of a handler that runs or is left, and that of a raise upwards that begins.
    pub event: u32,
    /// The number of the binding whose handler it is, 0 being the default; of a send that of the endpoint; of a packet
    /// that is dropped that of the fault of its headers, from 1.
    pub number: u32,
    /// The number of the kind of the answer with which a raise upwards ends.
    pub answer: u32,
    /// The result; or the value of that answer.
    pub value: u64,
    /// How many bytes are sent.
    pub length: u64,
}
