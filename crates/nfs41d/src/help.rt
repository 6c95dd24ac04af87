//! What the program answers of itself, without a server.

/// The forms of the command line and the options, as the man page docs/nfs41d.8 has them.
const HELP: &str =
    "usage: nfs41d serve --listen ADDR [--connections N] [--at-once K] [--settings FILE] [--status S] [--metrics FILE] [--client-list FILE]
       nfs41d replay [--settings FILE]
       nfs41d --help
       nfs41d --version

Options may come in any order.
  --listen ADDR
      An IPv4 address and a port, as 127.0.0.1:2049. Port 0 takes a free one.
  --connections N
      How many connections are to count before the program ends, 1 to 1,000,000.
      Left out it serves until it is stopped. A connection counts once a
      session's SEQUENCE was answered on it. After the last of them those that
      are open are served on, until they end or were silent for a lease. Without
      --at-once one connection is served at a time, and each that is taken
      counts.
  --at-once K
      How many connections at once, 1 to 16. Left out it is as many as the
      settings say, 64 unless they do, or 1 if --connections is given.
  --settings FILE
      A TOML document; see SETTINGS.
  --status S
      Write a line to standard error every S seconds, 1 to 86,400; see STATUS.
      Left out it writes none.
  --metrics FILE
      Write what it counts to FILE once a second, for monitors; see METRICS.
  --client-list FILE
      Write a line for each client to FILE once a second; see CLIENT LIST.

nfs41d(8) has the settings file, the status lines and more.
";

/// The name and the version, as the file VERSION has it.
const VERSION: &str = "nfs41d 0.7.0
";

/// The answer to words that ask for help or for the version, the program's name first; nothing to others.
pub fn answer(words: &[&str]) -> Option<&'static str> {
    let first = *words.get(1)?;
    let rest = words.len() - 2;
    match first {
        "--help" | "-h" if rest == 0 => Some(HELP),
        "--version" | "-V" if rest == 0 => Some(VERSION),
        "serve" if rest == 1 && (words[2] == "--help" || words[2] == "-h") => Some(HELP),
        _ => None,
    }
}
