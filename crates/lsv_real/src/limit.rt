// How many clients a number of ports serves at once, and which descriptors that takes.

/// Each port serves this many clients at once.
pub const CLIENTS_OF_PORT: u64 = 128;

/// Descriptors of the store and of what is neither a file of it nor of a port: 512 files at most, standard streams, locks, folders.
const OTHERS: u64 = 560;

/// Descriptors of a port: four to wait with, and 16 of links that it has closed and whose peers have not ended yet.
const OF_PORT: u64 = 20;

/// With fewer descriptors than this, and 4 for each port, not one client can be served by one lane.
const FEWEST: u64 = 32;

/// A port waits with this many.
const TO_WAIT: u64 = 4;

/// Each further lane takes this many at least.
const OF_LANE: u64 = 20;

/// How many clients this many ports serve at once under a limit of descriptors: 128 each, or as many as there are descriptors for
/// beside those that the server needs for itself, and one at least.
pub fn clients_of(ports: u64, limit: u64) -> u64 {
    let own = OTHERS.saturating_add(ports.saturating_mul(OF_PORT));
    let most = ports.saturating_mul(CLIENTS_OF_PORT);
    limit.saturating_sub(own).min(most).max(1)
}

/// How many descriptors let this many ports serve as many clients as they may.
pub fn descriptors_for(ports: u64) -> u64 {
    ports
        .saturating_mul(OF_PORT + CLIENTS_OF_PORT)
        .saturating_add(OTHERS)
}

/// With fewer descriptors than this a server of this many ports and lanes can't serve one client.
pub fn fewest_descriptors(ports: u64, lanes: u64) -> u64 {
    let waits = ports.saturating_mul(TO_WAIT);
    let files = lanes.saturating_sub(1).saturating_mul(OF_LANE);
    FEWEST.saturating_add(waits).saturating_add(files)
}
