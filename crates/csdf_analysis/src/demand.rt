//! What a channel asks of its two actors.

/// So many cycles of a channel's producer to so many of its consumer, in lowest terms.
#[derive(Clone, Copy, Debug, PartialEq, Eq)]
pub struct Ratio {
    /// The cycles of the producer.
    pub from: u32,
    /// The cycles of the consumer.
    pub to: u32,
}

/// What a channel asks of its two actors, and what the channels before it ask of these.
#[derive(Clone, Copy, Debug, PartialEq, Eq)]
pub struct Demand {
    /// The ratio in which the channel alone is balanced.
    pub own: Ratio,
    /// The ratio in which the channels before it are balanced, or none where these do not join the
    /// two actors.
    pub before: Option<Ratio>,
}
