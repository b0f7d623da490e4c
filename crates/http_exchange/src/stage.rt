use http1::Server;

/// Where a connection stands between two calls.
#[derive(Debug, Drop)]
pub enum Stage {
    /// The next request may come.
    Open {
        /// Whether its sender was told to send the body.
        invited: bool,
    },
    /// A request was handed out, and waits for its answer.
    Asked {
        /// The writer of its answer.
        server: Server,
        /// Whether the answer goes without its body, as to `HEAD`.
        bodiless: bool,
    },
    /// No request is read any more.
    Closed,
}
