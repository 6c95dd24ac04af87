//! What a command line may ask for.

/// What the program is to do.
#[derive(Clone, Copy)]
pub enum Order<'a> {
    /// Run the script of standard input.
    Replay {
        /// The path of the settings file, if one is named.
        settings: Option<&'a str>,
    },
    /// Serve TCP connections.
    Serve {
        /// The IPv4 address and port to listen on, as it was written.
        listen: &'a str,
        /// How many connections are to count before the program ends, from 1 to 1,000,000; `None` where it serves until it is stopped.
        connections: Option<u32>,
        /// How many at once, from 1 to 16; `None` where the settings say it.
        at_once: Option<u32>,
        /// The path of the settings file, if one is named.
        settings: Option<&'a str>,
        /// After how many seconds it says again what it does, from 1 to 86,400; `None` where it does not.
        status: Option<u32>,
        /// The path of the file of metrics, if one is named.
        metrics: Option<&'a str>,
        /// The path of the file that lists the clients, if one is named.
        clients: Option<&'a str>,
    },
}
