//! Keys of a settings file that are passed over, and why.

use strsim::levenshtein;

/// The keys of this server, each with its section.
const OURS: [(&str, &str); 10] = [
    ("server", "listen_address"),
    ("relay", "relay_host"),
    ("relay", "store_first"),
    ("iolog", "iolog_dir"),
    ("iolog", "iolog_file"),
    ("iolog", "log_passwords"),
    ("iolog", "prompts"),
    ("eventlog", "log_format"),
    ("eventlog", "log_exit"),
    ("logfile", "path"),
];

/// Keys that sudo's server has, and what this one does in place of them.
const OTHERS: [(&str, &str); 26] = [
    (
        "server_log",
        "messages go to standard error, so to the journal",
    ),
    ("pid_file", "no file has the number of the process"),
    (
        "tcp_keepalive",
        "this server has none: OPERATIONS shows a socket unit that has it",
    ),
    (
        "timeout",
        "the server has no timeouts, and each wait of `relay` ends after 30 s",
    ),
    ("connect_timeout", "each wait of `relay` ends after 30 s"),
    (
        "retry_interval",
        "the timer of the relay's unit says when it runs again",
    ),
    ("relay_dir", "`relay` sends what is in iolog_dir"),
    ("iolog_compress", "streams are stored as they are"),
    (
        "iolog_flush",
        "what is acknowledged is always on the disk before",
    ),
    ("iolog_user", "the user who runs the server owns the logs"),
    (
        "iolog_group",
        "the user who runs the server owns the logs, and no group may read them",
    ),
    ("iolog_mode", "files have the mode 0600, and folders 0700"),
    ("maxseq", "numbers are never used again"),
    (
        "passprompt_regex",
        "`prompts` of [iolog] has the texts that ask for a password",
    ),
    (
        "log_type",
        "events go to the file `path` of [logfile], never to syslog",
    ),
    ("facility", NO_SYSLOG),
    ("server_facility", NO_SYSLOG),
    ("accept_priority", NO_SYSLOG),
    ("reject_priority", NO_SYSLOG),
    ("alert_priority", NO_SYSLOG),
    ("auth_priority", NO_SYSLOG),
    ("maxlen", NO_SYSLOG),
    (
        "time_format",
        "times have one form, as 2026-12-01T13:45:00Z",
    ),
    ("tls_key", NO_TLS),
    ("tls_cert", NO_TLS),
    ("tls_verify", NO_TLS),
];

const NO_SYSLOG: &str = "this server doesn't write to syslog";

const NO_TLS: &str = "this server has no TLS: OPERATIONS shows a tunnel under Exposure";

/// A key with more letters that are wrong isn't taken for a slip.
const MOST_SLIPS: usize = 3;

/// Says why a key of a settings file is passed over.
pub fn tell_passed(rt: &HostRuntime, path: &str, line: u32, key: &str) {
    let _ = if let Some(why) = why_not_here(key) {
        eprintln!(rt; "sudo_logsrvd: {path}:{line}: warning: {key} is passed over: {why}")
    } else if let Some(section) = section_of(key) {
        eprintln!(rt;
            "sudo_logsrvd: {path}:{line}: warning: {key} is passed over: its section is [{section}]"
        )
    } else if let Some((section, near)) = nearest(rt, key) {
        eprintln!(rt;
            "sudo_logsrvd: {path}:{line}: warning: {key} is passed over: there is no such key; is it {near} of [{section}]?"
        )
    } else {
        eprintln!(rt;
            "sudo_logsrvd: {path}:{line}: warning: {key} is passed over: there is no such key"
        )
    };
}

/// What this server does in place of a key that sudo's has.
fn why_not_here(key: &str) -> Option<&'static str> {
    for (name, why) in OTHERS {
        if key.eq_ignore_ascii_case(name) {
            return Some(why);
        }
    }
    let front = key.as_bytes().get(..4)?;
    if front.eq_ignore_ascii_case(b"tls_") {
        return Some(NO_TLS);
    }
    None
}

/// The section of a key of this server.
fn section_of(key: &str) -> Option<&'static str> {
    for (section, name) in OURS {
        if key.eq_ignore_ascii_case(name) {
            return Some(section);
        }
    }
    None
}

/// The key of this server that is the nearest to another, with its section, where one is near.
fn nearest(rt: &HostRuntime, key: &str) -> Option<(&'static str, &'static str)> {
    let mut best = MOST_SLIPS;
    let mut found = None;
    for (section, name) in OURS {
        let distance = levenshtein(rt.alloc(), key, name).ok()?;
        let is_near = if found.is_some() {
            distance < best
        } else {
            distance <= best
        };
        if is_near && distance < name.len() {
            best = distance;
            found = Some((section, name));
        }
    }
    found
}
