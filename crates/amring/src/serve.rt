//! `serve`: a world behind a port.

ghost use Rattle.std.specs.Prelude.{◌≡◌, length};

use crate::stores;
use am_admin::{AdminPort, Counted};
use am_gateway::{Gateway, has_quorum};
use am_limit::Limits;
use am_limits_file::{LimitsWatch, Renewal};
use am_log::{Entry, Form, Log};
use am_options::Serving;
use am_play::stops::Stops;
use am_play::telling::tell;
use am_report::ending;
use am_rows::Rows;
use am_server::{Server, listen};
use am_setup::Setup;
use am_stream::Sink;
use am_tenant::TenantName;
use am_text::Text;
use am_world::{AnyWorld, World};
use mio::net::TcpListener;
use std::alloc::Global;
use std::collections::BTreeMap;
use std::fs::Files;
use std::net::{Ipv4Addr, Net, SocketAddr};
use std::process::ExitCode;
use std::time::Clock;
use std::{io, mem};

/// The exit status where a port can't be had.
const NO_PORT: u8 = 2;

/// The exit status where the file of limits is refused.
const NO_LIMITS: u8 = 2;

/// Where the program serves, where those who run it ask, and how it serves.
#[derive(Drop)]
struct Site {
    listener: TcpListener,
    address: SocketAddr,
    admin: Option<Desk>,
    manner: Manner,
}

/// Where those who run the program ask.
#[derive(Drop)]
struct Desk {
    listener: TcpListener,
    address: SocketAddr,
}

/// A port that the program listens on.
#[derive(Clone, Copy)]
enum Port {
    /// That of clients.
    Clients,
    /// That of those who run the program.
    Admin,
}

/// How the program serves: how many connections are answered, by which file of limits, how it tells what it does, and
/// whether it shows what was counted by tenant too.
#[derive(Drop)]
struct Manner {
    count: Option<u64>,
    limits: Option<LimitsWatch>,
    form: Form,
    by_tenant: bool,
}

/// Serves connections until as many were answered as were asked for, and prints `faults N` then; or until fewer than
/// two instances are up, which ends the program with a failure. What becomes of it is told on standard error at once.
///
/// # Errors
/// Those of the system's poll and clocks, and of printing; out of memory.
pub fn serve<E: Sink>(rt: &HostRuntime, serving: Serving, errors: &mut E) -> io::Result<ExitCode> {
    let Serving {
        setup,
        has_start,
        store,
        address,
        port,
        admin,
        count,
        limits,
        log: form,
        by_tenant,
    } = serving;
    let (setup, limits) = match open_limits(rt, setup, limits)? {
        Ok(opened) => opened,
        Err(cause) => return refuse_limits(rt, form, cause, errors),
    };
    let manner = Manner {
        count,
        limits,
        form,
        by_tenant,
    };
    let site = match open_site(rt, SocketAddr::from((address, port)), admin, manner)? {
        Ok(site) => site,
        Err(lacking) => return refuse_port(lacking, errors),
    };
    match store {
        None => serve_over(rt, setup, stores::in_memory(rt.alloc())?, site, errors),
        Some(folder) => match stores::in_folder(rt, folder.as_str()) {
            Ok(stores) if has_start => serve_over(rt, setup, stores, site, errors),
            Ok(stores) => restart(rt, setup, stores, site, errors),
            Err(refusal) => stores::refuse(rt.alloc(), errors, refusal),
        },
    }
}

/// Reads the file of limits, where one is given: its default is that of the setup. The text says why it is refused.
///
/// # Errors
/// Out of memory.
fn open_limits<R: Files + AllocGlobal>(
    rt: &R,
    setup: Setup,
    path: Option<Text>,
) -> io::Result<Result<(Setup, Option<LimitsWatch>), String>> {
    let Some(path) = path else {
        return Ok(Ok((setup, None)));
    };
    match LimitsWatch::open(rt, path, setup.limits())? {
        Ok(watch) => {
            let default = watch.default();
            Ok(Ok((setup.with_limits(default), Some(watch))))
        }
        Err(cause) => Ok(Err(cause)),
    }
}

/// Tells why the file of limits is refused.
///
/// # Errors
/// Those of the sink and the system's clock; out of memory.
fn refuse_limits<R: Clock + AllocGlobal, E: Sink>(
    rt: &R,
    form: Form,
    cause: String,
    errors: &mut E,
) -> io::Result<ExitCode> {
    let entry = Entry::LimitsRefused(Text::from_string(cause));
    tell(rt.alloc(), log_now(rt, form)?, &entry, errors)?;
    Ok(ExitCode::from(NO_LIMITS))
}

/// A log by the wall clock.
///
/// # Errors
/// Those of the system's clock.
fn log_now<R: Clock>(rt: &R, form: Form) -> io::Result<Log> {
    let milliseconds = rt.since_1970()?.as_millis().min(u128::from(u64::MAX)) as u64;
    Ok(Log::new(form, milliseconds))
}

/// Tells which port can't be had.
///
/// # Errors
/// Those of the sink.
fn refuse_port<E: Sink>(lacking: Port, errors: &mut E) -> io::Result<ExitCode> {
    let text = match lacking {
        Port::Clients => "port\n",
        Port::Admin => "admin port\n",
    };
    errors.write_whole(text.as_bytes())?;
    Ok(ExitCode::from(NO_PORT))
}

/// Where the program is to serve and be asked, or the port that can't be had.
///
/// # Errors
/// Out of memory.
fn open_site<R: Net>(
    rt: &R,
    address: SocketAddr,
    admin: Option<u16>,
    manner: Manner,
) -> io::Result<Result<Site, Port>> {
    let Some(listener) = listen_at(rt, address)? else {
        return Ok(Err(Port::Clients));
    };
    let admin = match admin {
        None => None,
        Some(port) => {
            let address = SocketAddr::from((Ipv4Addr::LOCALHOST, port));
            let Some(listener) = listen_at(rt, address)? else {
                return Ok(Err(Port::Admin));
            };
            Some(Desk { listener, address })
        }
    };
    Ok(Ok(Site {
        listener,
        address,
        admin,
        manner,
    }))
}

/// Listens at an address; none where it can't be had.
///
/// # Errors
/// Out of memory.
fn listen_at<R: Net>(rt: &R, address: SocketAddr) -> io::Result<Option<TcpListener>> {
    match listen(rt, address) {
        Ok(listener) => Ok(Some(listener)),
        Err(error) if error.kind() == io::ErrorKind::OutOfMemory => Err(error),
        Err(_) => Ok(None),
    }
}

/// Serves connections over stores that were in use before, in an incarnation after all of their rows.
fn restart<S: Rows + Drop, R: Net + Clock + Files + Print + AllocGlobal, E: Sink>(
    rt: &R,
    setup: Setup,
    mut stores: Vec<S>,
    site: Site,
    errors: &mut E,
) -> io::Result<ExitCode>
    requires { length stores.items ≡ 8 }
{
    match stores::next_incarnation(rt.alloc(), &mut stores) {
        Ok(Some(start)) => serve_over(rt, setup.with_start(start), stores, site, errors),
        Ok(None) => ending::refuse(errors, "no incarnation is left"),
        Err(refusal) => stores::refuse(rt.alloc(), errors, refusal),
    }
}

/// Serves connections over these stores.
fn serve_over<S: Rows + Drop, R: Net + Clock + Files + Print + AllocGlobal, E: Sink>(
    rt: &R,
    setup: Setup,
    stores: Vec<S>,
    site: Site,
    errors: &mut E,
) -> io::Result<ExitCode>
    requires { length stores.items ≡ 8 }
{
    match World::open(rt.alloc(), setup, stores) {
        Ok(mut world) => {
            let served = serve_world(rt, &mut world, site, errors);
            // The process ends: what the world holds need not be given back piece by piece, and each store is at its
            // last commit.
            mem::forget(world);
            served
        }
        Err(refusal) => stores::refuse(rt.alloc(), errors, refusal),
    }
}

/// Serves a world, says where, and says at the end what became of it.
fn serve_world<W: AnyWorld, R: Net + Clock + Files + Print + AllocGlobal, E: Sink>(
    rt: &R,
    world: &mut W,
    site: Site,
    errors: &mut E,
) -> io::Result<ExitCode> {
    let log = log_now(rt, site.manner.form)?;
    announce(rt.alloc(), log, &site, errors)?;
    attend(rt, site, world, errors)?;
    let faults = world.faults();
    print!(rt; "faults {faults}\n")?;
    if has_quorum(world) {
        Ok(ExitCode::SUCCESS)
    } else {
        Ok(ExitCode::FAILURE)
    }
}

/// Tells where connections are taken.
fn announce<E: Sink>(alloc: Global, log: Log, site: &Site, errors: &mut E) -> io::Result<()> {
    let address = site.address;
    let address = Text::from_string(format!(in alloc; "{address}")?);
    tell(alloc, log, &Entry::Listening(address), errors)?;
    let Some(Desk { address, .. }) = &site.admin else {
        return Ok(());
    };
    let address = Text::from_string(format!(in alloc; "{address}")?);
    tell(alloc, log, &Entry::AdminListening(address), errors)?;
    Ok(())
}

/// Serves the clients of a site until all is done, or too few instances are up.
fn attend<W: AnyWorld, R: Net + Clock + Files + AllocGlobal, E: Sink>(
    rt: &R,
    site: Site,
    world: &mut W,
    errors: &mut E,
) -> io::Result<()> {
    let Site {
        listener,
        admin,
        manner,
        ..
    } = site;
    let mut manner = manner;
    let gateway = Gateway::new(rt.alloc(), world)?;
    let mut counted = Counted::new(rt.alloc(), gateway, manner.by_tenant);
    if let Some(watch) = &manner.limits {
        let log = log_now(rt, manner.form)?;
        set_limits(
            rt.alloc(),
            &mut counted,
            watch.first(rt.alloc())?,
            log,
            errors,
        )?;
    }
    let mut admin = match admin {
        Some(desk) => Some(AdminPort::new(rt, rt.alloc(), desk.listener)?),
        None => None,
    };
    let mut server = Server::open(rt, rt.alloc(), listener, &mut counted, manner.count)?;
    take_turns(rt, &mut server, &mut admin, &mut manner, errors)
}

/// Has a server work, turn by turn, until all is done, or too few instances are up. Tells what becomes of it.
fn take_turns<W: AnyWorld, R: Net + Clock + Files + AllocGlobal, E: Sink>(
    rt: &R,
    server: &mut Server<'_, Counted<'_, W>>,
    admin: &mut Option<AdminPort>,
    manner: &mut Manner,
    errors: &mut E,
) -> io::Result<()> {
    let mut stops = Stops::none();
    for _ in 0..u64::MAX {
        if server.is_done() || !server.is_up() {
            break;
        }
        take_turn(rt, server, manner.form, errors)?;
        if let Some(admin) = admin {
            admin.turn(rt, rt.alloc(), server.service_mut())?;
        }
        let log = Log::new(manner.form, server.service().moment());
        tell_all(rt.alloc(), server.service_mut(), log, errors)?;
        if server.service_mut().take_tick() {
            renew_limits(rt, server.service_mut(), manner, errors)?;
        }
        stops.tell(rt.alloc(), server.service().gateway().world(), log, errors)?;
    }
    Ok(())
}

/// Has a server work for a turn, and tells where the clock is off.
fn take_turn<W: AnyWorld, R: Net + Clock + AllocGlobal, E: Sink>(
    rt: &R,
    server: &mut Server<'_, Counted<'_, W>>,
    form: Form,
    errors: &mut E,
) -> io::Result<()> {
    let news = server.turn(rt)?;
    let load = server.load();
    server.service_mut().note_load(load);
    if let Some(news) = news {
        let text = Text::from_string(format!(in rt.alloc(); "{news}")?);
        let log = Log::new(form, server.service().moment());
        tell(rt.alloc(), log, &Entry::Clock(text), errors)?;
    }
    Ok(())
}

/// Tells all that happened and wasn't told.
fn tell_all<W: AnyWorld, E: Sink>(
    alloc: Global,
    counted: &mut Counted<'_, W>,
    log: Log,
    errors: &mut E,
) -> io::Result<()> {
    for _ in 0..u64::MAX {
        let Some(entry) = counted.next_entry() else {
            break;
        };
        tell(alloc, log, &entry, errors)?;
    }
    Ok(())
}

/// Reads the file of limits again, where one is given, and tells what comes of it.
fn renew_limits<W: AnyWorld, R: Files + AllocGlobal, E: Sink>(
    rt: &R,
    counted: &mut Counted<'_, W>,
    manner: &mut Manner,
    errors: &mut E,
) -> io::Result<()> {
    let log = Log::new(manner.form, counted.moment());
    let Some(watch) = &mut manner.limits else {
        return Ok(());
    };
    match watch.renew(rt)? {
        Renewal::Same => Ok(()),
        Renewal::Set(limits) => {
            counted.note_limits(false);
            set_limits(rt.alloc(), counted, limits, log, errors)
        }
        Renewal::Refused(cause) => {
            counted.note_limits(true);
            let entry = Entry::LimitsRefused(Text::from_string(cause));
            tell(rt.alloc(), log, &entry, errors)?;
            Ok(())
        }
    }
}

/// Gives tenants these limits, and tells how many they are.
fn set_limits<W: AnyWorld, E: Sink>(
    alloc: Global,
    counted: &mut Counted<'_, W>,
    limits: BTreeMap<TenantName, Limits>,
    log: Log,
    errors: &mut E,
) -> io::Result<()> {
    for (tenant, own) in &limits {
        counted.set_limits(*tenant, *own)?;
    }
    let entry = Entry::LimitsRead(limits.len() as u64);
    tell(alloc, log, &entry, errors)?;
    Ok(())
}
