/// The result of one event of a batch.
#[derive(Clone, Copy, Debug, PartialEq, Eq)]
pub struct EventResult<R> {
    pub result: R,
    /// The timestamp of the event's place in the batch, in nanoseconds, accepted or not.
    pub timestamp: u64,
}

/// The first event of a chain that fails.
#[derive(Clone, Copy, Debug, PartialEq, Eq)]
pub struct Refusal<R> {
    /// Its place in the chain, from 0.
    pub place: usize,
    pub result: R,
    /// Its id, if that stays failed whatever becomes of the chain.
    pub failed_id: Option<u128>,
}

/// The answer to a batch.
#[derive(Debug, Drop)]
pub enum BatchReply<R> {
    /// The batch ran: the clock after it, and a result for each event, in order.
    Done {
        /// In nanoseconds.
        clock: u64,
        results: Vec<EventResult<R>>,
    },
    /// The clock after the batch would pass 2^62; nothing changed.
    ClockExhausted,
}
