/// What is kept of a record beside it: the length in bytes of its element in an event, and the start of its tumbling window
/// in milliseconds, 0 if no windows are configured.
#[derive(Clone, Copy, Debug)]
pub struct Measure {
    pub length: u32,
    pub window: u64,
}
