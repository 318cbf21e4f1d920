use am_expect::equal;
use am_item::{EntryKey, LabelSets};
use am_outlet::{Attempts, Notice, Outcome, Sending, read_status};
use am_tenant::TenantName;
use am_text::{Moment, Octets, Text};
use am_url::WebhookUrl;
use std::alloc::Global;
use std::test::Fail;

const URL: &str = "http://localhost:9/h";

const REQUEST: &str =
    "POST /h HTTP/1.1\r\nHost: localhost:9\r\nContent-Type: application/json\r\nContent-Length: 2\r\nConnection: close\r\n\r\n{}";

fn at(milliseconds: u64) -> Moment {
    Moment::from_milliseconds(milliseconds).unwrap_or(Moment::greatest())
}

fn url(alloc: Global) -> Result<WebhookUrl, Fail> {
    Ok(WebhookUrl::read(alloc, URL)?.ok_or("no URL")?)
}

fn no_sets(alloc: Global) -> Result<LabelSets, Fail> {
    Ok(LabelSets::from_rising(Vec::new(alloc)).ok_or("no sets")?)
}

fn no_text(alloc: Global) -> Text {
    Text::from_string(String::new(alloc))
}

fn notice(alloc: Global) -> Result<Notice, Fail> {
    Ok(Notice {
        url: url(alloc)?,
        body: Octets::read(alloc, b"{}")?,
        firing: no_sets(alloc)?,
        resolved: no_sets(alloc)?,
        key: EntryKey {
            receiver: no_text(alloc),
            group: no_text(alloc),
            webhook: 0,
        },
        span: 14_700_000,
    })
}

// A tenant's first attempt, whose first try is out.
fn started(alloc: Global) -> Result<(TenantName, Attempts, Sending), Fail> {
    let tenant = TenantName::read(b"a")?;
    let mut attempts = Attempts::new(alloc);
    let sending = attempts.start(alloc, &tenant, notice(alloc)?)?;
    Ok((tenant, attempts, sending))
}

// What an outcome made of its attempt, and when the next try is due.
fn told(outcome: Outcome) -> (&'static str, u64) {
    match outcome {
        Outcome::NotOpen => ("not open", 0),
        Outcome::Delivered(_) => ("delivered", 0),
        Outcome::Again(due) => ("again", due.milliseconds()),
        Outcome::GivenUp => ("given up", 0),
    }
}

type Row = (Option<u16>, (&'static str, u64));

// The status of the answer to a first try, and what it makes of the attempt at 30 seconds.
const OUTCOMES: &[Row] = &[
    (Some(200), ("delivered", 0)),
    (Some(300), ("given up", 0)),
    (Some(404), ("given up", 0)),
    (Some(503), ("again", 40_000)),
    (None, ("again", 40_000)),
];

fn outcome_is(alloc: Global, row: &Row) -> Result<(), Fail> {
    let (status, wanted) = *row;
    let (tenant, mut attempts, _) = started(alloc)?;
    let outcome = attempts.outcome(&tenant, 1, 1, at(30_000), status);
    equal(told(outcome), wanted, status.unwrap_or(0))
}

#[test]
fn outcomes(rt: HostRuntime) -> Result<(), Fail> {
    for row in OUTCOMES {
        outcome_is(rt.alloc(), row)?;
    }
    Ok(())
}

// Each try sends the same bytes.
fn is_try(sending: Option<Sending>, tries: u8) -> Result<(), Fail> {
    match sending {
        Some(sent) => equal(
            (sent.tries, sent.bytes.as_slice()),
            (tries, REQUEST.as_bytes()),
            "try",
        ),
        None => Err(Fail::new("no try")),
    }
}

fn second_is_same(alloc: Global, attempts: &mut Attempts, tenant: &TenantName) -> Result<(), Fail> {
    let outcome = attempts.outcome(tenant, 1, 1, at(30_000), Some(500));
    equal(told(outcome), ("again", 40_000), 500)?;
    is_try(attempts.tick(alloc, tenant, 1, at(40_000))?, 2)
}

#[test]
fn second_try(rt: HostRuntime) -> Result<(), Fail> {
    let (tenant, mut attempts, first) = started(rt.alloc())?;
    is_try(Some(first), 1)?;
    second_is_same(rt.alloc(), &mut attempts, &tenant)
}

type Answer = (&'static str, Option<u16>);

const ANSWERS: &[Answer] = &[
    ("HTTP/1.1 200 OK\r\n\r\n", Some(200)),
    ("HTTP/1.1 503 Busy\r\nA: b\r\n\r\nbody", Some(503)),
    ("HTTP/1.0 404\r\n\r\n", Some(404)),
    ("HTTP/1.1 200 OK\r\n", None),
    ("HTTP/2 200\r\n\r\n", None),
    ("", None),
];

fn status_is(row: &Answer) -> Result<(), Fail> {
    equal(read_status(row.0.as_bytes()), row.1, row.0)
}

#[test]
fn statuses() -> Result<(), Fail> {
    for row in ANSWERS {
        status_is(row)?;
    }
    Ok(())
}
