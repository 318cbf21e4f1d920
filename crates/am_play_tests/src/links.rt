//! Links of which a call fails, and one that carries everything.

ghost use Rattle.std.specs.Prelude.{◌≡◌, true};

use crate::playing::{opened, played_over, stores};
use am_expect::equal;
use am_stream::Link;
use std::alloc::Global;
use std::test::Fail;

// One alert is posted, in five pieces with the spaces that stand for `..`, and read back.
const POSTED_AND_READ: (&str, &str) = (
    r#"at 1750000000000
tick
call p 1 a POST /alertmanager/api/v2/alerts "[{\"labels\":{\"a\":\"b\"}}..]"
pump
call g 1 a GET /alertmanager/api/v2/alerts
pump
"#,
    r#"reply p "HTTP/1.1 200 OK\r\nContent-Type: application/json\r\nContent-Length: 0\r\nConnection: close\r\n\r\n"
reply g "HTTP/1.1 200 OK\r\nContent-Type: application/json\r\nContent-Length: 297\r\nConnection: close\r\n\r\n[{\"annotations\":{},\"endsAt\":\"2025-06-15T15:11:40.000Z\",\"fingerprint\":\"d2b371819297f98a\",\"generatorURL\":\"\",\"labels\":{\"a\":\"b\"},\"receivers\":[{\"name\":\"default\"}],\"startsAt\":\"2025-06-15T15:06:40.000Z\",\"status\":{\"inhibitedBy\":[],\"silencedBy\":[],\"state\":\"active\"},\"updatedAt\":\"2025-06-15T15:06:40.000Z\"}]"
faults 0
"#,
);

// A group's notice is told by one of the three, instance 3 here, and a minute later that the alert is resolved. The
// receiver answers 200. What is written has the notices' second tries too.
const NOTIFIED: (&str, &str) = (
    r#"at 1750000000000
tick
call c 1 shop POST /api/v1/alerts "{\"alertmanager_config\":\"{\\\"route\\\":{\\\"receiver\\\":\\\"pager\\\",\\\"group_wait\\\":\\\"10s\\\",\\\"group_interval\\\":\\\"1m\\\"},\\\"receivers\\\":[{\\\"name\\\":\\\"pager\\\",\\\"webhook_configs\\\":[{\\\"url\\\":\\\"http://localhost:8080/pager\\\"}]}]}\"}"
pump
call p 1 shop POST /alertmanager/api/v2/alerts "[{\"labels\":{\"alertname\":\"DiskFull\"},\"startsAt\":\"2025-06-15T15:06:40Z\",\"endsAt\":\"2025-06-15T15:07:40Z\"}]"
pump
at 1750000010000
tick
at 1750000019999
tick
at 1750000020000
tick
pump
at 1750000025000
tick
pump
at 1750000040000
tick
at 1750000070000
tick
at 1750000080000
tick
pump
at 1750000085000
tick
pump
at 1750000100000
tick
"#,
    r#"reply c "HTTP/1.1 201 Created\r\nContent-Type: application/json\r\nContent-Length: 0\r\nConnection: close\r\n\r\n"
reply p "HTTP/1.1 200 OK\r\nContent-Type: application/json\r\nContent-Length: 0\r\nConnection: close\r\n\r\n"
notice shop 3 1 1 http://localhost:8080/pager "POST /pager HTTP/1.1\r\nHost: localhost:8080\r\nContent-Type: application/json\r\nContent-Length: 418\r\nConnection: close\r\n\r\n{\"alerts\":[{\"annotations\":{},\"endsAt\":\"0001-01-01T00:00:00Z\",\"fingerprint\":\"744e61ca074bea90\",\"generatorURL\":\"\",\"labels\":{\"alertname\":\"DiskFull\"},\"startsAt\":\"2025-06-15T15:06:40.000Z\",\"status\":\"firing\"}],\"commonAnnotations\":{},\"commonLabels\":{\"alertname\":\"DiskFull\"},\"externalURL\":\"http://localhost/alertmanager\",\"groupKey\":\"0{}\",\"groupLabels\":{},\"receiver\":\"pager\",\"status\":\"firing\",\"truncatedAlerts\":0,\"version\":\"4\"}"
notice shop 3 1 2 http://localhost:8080/pager "POST /pager HTTP/1.1\r\nHost: localhost:8080\r\nContent-Type: application/json\r\nContent-Length: 418\r\nConnection: close\r\n\r\n{\"alerts\":[{\"annotations\":{},\"endsAt\":\"0001-01-01T00:00:00Z\",\"fingerprint\":\"744e61ca074bea90\",\"generatorURL\":\"\",\"labels\":{\"alertname\":\"DiskFull\"},\"startsAt\":\"2025-06-15T15:06:40.000Z\",\"status\":\"firing\"}],\"commonAnnotations\":{},\"commonLabels\":{\"alertname\":\"DiskFull\"},\"externalURL\":\"http://localhost/alertmanager\",\"groupKey\":\"0{}\",\"groupLabels\":{},\"receiver\":\"pager\",\"status\":\"firing\",\"truncatedAlerts\":0,\"version\":\"4\"}"
notice shop 3 2 1 http://localhost:8080/pager "POST /pager HTTP/1.1\r\nHost: localhost:8080\r\nContent-Type: application/json\r\nContent-Length: 426\r\nConnection: close\r\n\r\n{\"alerts\":[{\"annotations\":{},\"endsAt\":\"2025-06-15T15:07:40.000Z\",\"fingerprint\":\"744e61ca074bea90\",\"generatorURL\":\"\",\"labels\":{\"alertname\":\"DiskFull\"},\"startsAt\":\"2025-06-15T15:06:40.000Z\",\"status\":\"resolved\"}],\"commonAnnotations\":{},\"commonLabels\":{\"alertname\":\"DiskFull\"},\"externalURL\":\"http://localhost/alertmanager\",\"groupKey\":\"0{}\",\"groupLabels\":{},\"receiver\":\"pager\",\"status\":\"resolved\",\"truncatedAlerts\":0,\"version\":\"4\"}"
notice shop 3 2 2 http://localhost:8080/pager "POST /pager HTTP/1.1\r\nHost: localhost:8080\r\nContent-Type: application/json\r\nContent-Length: 426\r\nConnection: close\r\n\r\n{\"alerts\":[{\"annotations\":{},\"endsAt\":\"2025-06-15T15:07:40.000Z\",\"fingerprint\":\"744e61ca074bea90\",\"generatorURL\":\"\",\"labels\":{\"alertname\":\"DiskFull\"},\"startsAt\":\"2025-06-15T15:06:40.000Z\",\"status\":\"resolved\"}],\"commonAnnotations\":{},\"commonLabels\":{\"alertname\":\"DiskFull\"},\"externalURL\":\"http://localhost/alertmanager\",\"groupKey\":\"0{}\",\"groupLabels\":{},\"receiver\":\"pager\",\"status\":\"resolved\",\"truncatedAlerts\":0,\"version\":\"4\"}"
faults 0
"#,
);

/// A link in memory that carries everything.
#[derive(Drop)]
pub struct Direct;

impl Link for Direct {
    ghost carries = { λ piece came. came ≡ true };

    ghost answers = { λ request status read. read ≡ status };

    fn carry(&mut self, _piece: &[u8]) -> bool {
        true
    }

    fn tell(&mut self, _request: &[u8], status: Option<u16>) -> Option<u16> {
        status
    }
}

/// What is written where the post isn't whole.
const NOTHING_READ: &str =
    r#"reply g "HTTP/1.1 200 OK\r\nContent-Type: application/json\r\nContent-Length: 2\r\nConnection: close\r\n\r\n[]"
faults 0
"#;

/// A link in memory of which one call fails, after so many that don't.
#[derive(Drop)]
struct Failing {
    before: Option<usize>,
}

impl Failing {
    /// Whether the next call fails.
    fn fails(&mut self) -> bool {
        let fails = self.before == Some(0);
        self.before = self.before.and_then(|before| before.checked_sub(1));
        fails
    }
}

impl Link for Failing {
    fn carry(&mut self, _piece: &[u8]) -> bool {
        !self.fails()
    }

    fn tell(&mut self, _request: &[u8], status: Option<u16>) -> Option<u16> {
        if self.fails() { None } else { status }
    }
}

// How many calls of the link don't fail before one does, which instance tells the webhook then, and which lines are
// written of those of `NOTIFIED`. The first call carries a configuration, and the next twelve the messages of its
// operation, of which the seventh puts it to instance 3; then come a post with its twelve messages, a notice, the two
// messages that put to the others that the webhook was told, and the second notice. A notice whose answer doesn't come
// is tried again.
const LINES_LEFT: [(usize, &str, &[usize]); 8] = [
    (0, "3", &[1, 6]),
    (1, "3", &[0, 1, 2, 4, 6]),
    (7, "2", &[0, 1, 2, 4, 6]),
    (8, "3", &[0, 1, 2, 4, 6]),
    (12, "3", &[0, 1, 2, 4, 6]),
    (13, "3", &[0, 6]),
    (26, "3", &[0, 1, 2, 3, 4, 6]),
    (29, "3", &[0, 1, 2, 4, 5, 6]),
];

/// Plays a scenario over a link of which a call fails, after so many that don't, and holds what is written to what is wanted.
fn writes(alloc: Global, scenario: &str, before: usize, wanted: &str) -> Result<(), Fail> {
    let mut link = Failing {
        before: Some(before),
    };
    let world = opened(alloc, 1, stores(alloc)?)?;
    let (written, _) = played_over(alloc, world, &mut link, scenario)?;
    equal(std::str::from_utf8(&written)?, wanted, before)
}

/// Those lines of the text that have these places.
fn lines_at(alloc: Global, text: &str, places: &[usize]) -> Result<String, Fail> {
    let mut lines = String::new(alloc);
    for place in places {
        lines.push_str(text.lines().nth(*place).ok_or("no such line")?)?;
        lines.push('\n')?;
    }
    Ok(lines)
}

#[test]
fn a_call_fails(rt: HostRuntime) -> Result<(), Fail> {
    let (scenario, lines) = NOTIFIED;
    for (call, teller, left) in LINES_LEFT {
        let told = format!(in rt.alloc(); "notice shop {teller} ")?;
        let wanted = lines_at(rt.alloc(), lines, left)?;
        let wanted = wanted.replace(rt.alloc(), "notice shop 3 ", told.as_str())?;
        writes(rt.alloc(), scenario, call, wanted.as_str())?;
    }
    Ok(())
}

/// So many spaces that a post with them comes in five pieces.
fn spaces(alloc: Global) -> Result<String, Fail> {
    let mut spaces = String::new(alloc);
    for _ in 0..20_000u32 {
        spaces.push(' ')?;
    }
    Ok(spaces)
}

// A post of which a piece is lost isn't answered, and nothing is read back. Where one of its twelve messages is lost it is
// answered and read back all the same.
#[test]
fn a_piece_is_lost(rt: HostRuntime) -> Result<(), Fail> {
    let (scenario, lines) = POSTED_AND_READ;
    let scenario = scenario.replace(rt.alloc(), "..", spaces(rt.alloc())?.as_str())?;
    for call in 0..17usize {
        let wanted = if call < 5 { NOTHING_READ } else { lines };
        writes(rt.alloc(), scenario.as_str(), call, wanted)?;
    }
    Ok(())
}
