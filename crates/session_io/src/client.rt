/// A client: where its requests come from, where the replies to them go, and its clock.
#[derive(Drop)]
pub struct Client<S, K, C> {
    pub source: S,
    pub sink: K,
    pub clock: C,
}

/// A word of the command line.
#[derive(Debug, Drop)]
pub struct Word {
    pub text: String,
}
