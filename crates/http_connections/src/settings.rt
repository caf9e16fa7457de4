// What a server is told of its connections.

#[derive(Clone, Copy, Debug, PartialEq, Eq)]
pub struct Settings {
    /// After how many connections no more are accepted; `None` for never.
    pub connections: Option<u64>,
    /// How many are open at a time. The others wait.
    pub max_connections: u64,
}
