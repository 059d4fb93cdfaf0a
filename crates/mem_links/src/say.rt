//! What a link in memory may say.

/// One thing that a link in memory does when it is taken from.
#[derive(Drop)]
pub enum Say {
    /// Gives these bytes, as many at a time as there is room for. Without bytes it is passed over.
    Give(Vec<u8>),
    /// Answers Idle until a whole line that begins with `front` was put on the link, or `turns` times.
    WaitFor { front: Vec<u8>, turns: u64 },
    /// Answers End, then and at each later take.
    Finish,
}
