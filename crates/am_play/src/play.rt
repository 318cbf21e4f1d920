ghost use Rattle.std.specs.Prelude.{◌≡◌, ◌⊎◌, ◌++◌, ◌&&◌, not, is_none, ℕ, List, string_bytes};
ghost use Rattle.std.specs.Prelude.{IfErr, IfOk, OnErr, OnOk};
ghost use Rattle.std.specs.List.{flat_map};
ghost use Rattle.std.specs.Io.KnownBytes.{Appends, Keeps};
ghost use Rattle.am_world.specs.Refusal.{refusal};
ghost use Rattle.am_world.specs.Simulation.{fault_count, put_out};
ghost use Rattle.am_play.specs.Playing.{Happens, Gives, Calls, Obeys, Settles, Does};
ghost use Rattle.am_play.specs.Scenario.{Course, CourseBreaks, IsolatesTenants, Scenario, ScenarioBreaks};
ghost use Rattle.am_stream.specs.Streams.{IsFailureOf};
ghost use Rattle.am_play.specs.Trace.{Happened, Reports, printed, output_line};
ghost use Rattle.am_report.specs.Ending.{ending};
ghost use Rattle.am_report.specs.Output.{is_answered};
ghost use Rattle.am_report.specs.Said.{instance_of};
ghost use Rattle.am_report.specs.Tries.{tries_in, try_of};
ghost use Rattle.am_stream.specs.Writing.{AppendsPart};

use crate::stops::Stops;
use am_event::{Event, Output};
use am_http::ConnectionId;
use am_log::Log;
use am_report::ending::{Played, faults_line};
use am_report::{Connections, Mail, Report, Try, event_of, instance_of, is_answered, name_said};
use am_scenario::{Command, LineFault, Request, read_command};
use am_stream::{Link, Sink, Source, StreamFailure};
use am_text::{Octets, Text};
use am_world::AnyWorld;
use std::alloc::{AllocError, Global};
use std::mem;

/// The most bytes that one event gives to the world, and that go over the link at once.
pub(crate) const PIECE: usize = 4096;

/// What the program's own receiver answers at first: the status 200.
const TAKEN: u16 = 200;

/// Plays the scenario that `source` gives against a world, and writes its output lines to `writer`. What a line gives
/// to a connection goes over the link in pieces, and ends where one is lost. Each notice goes over it too, and the
/// outcome of its try has the status that was read of the answer. The world is handed back, as the last line left it.
///
/// What is written are the lines of a trace: what happened, event by event. Where the world was just opened, a tenant's
/// outputs in it are, whatever the other tenants do, byte for byte and in order, those of a private cluster that has
/// this tenant alone and begins with its rows; provided that no connection's name is opened twice, no pattern that the
/// tenant brings was refused its build, and each store that a line opens is in memory or its disk has returned what was
/// written; and up to a first fault.
///
/// # Errors
/// Out of memory, or an error that one of the streams gave. What was written stays, and is a first part of what is
/// written of the lines that were played; the world is dropped.
pub fn play<W: AnyWorld + Drop, L: Link, S: Source, K: Sink, E: Sink>(
    alloc: Global,
    world: W,
    link: &mut L,
    source: S,
    writer: &mut K,
    errors: &mut E,
) -> Result<(Played, W), StreamFailure>
    // Where the lines of the source aren't known, there are lines of which this holds.
    ensures plays { IfOk result (λ r. (trace : List Happened) × (faults : ℕ)
        × Scenario W.contents L.carries L.answers (W.contents world) (S.lines source) r.0 trace faults (W.contents r.1)
        × Appends (K.contents writer.old) (K.contents writer.new) (printed trace ++ ending r.0 faults)
        × IsolatesTenants (W.contents world) trace faults (W.contents r.1).shelves) }
    ensures breaks { OnErr result (ScenarioBreaks W.contents L.carries L.answers (W.contents world) (S.lines source)
        (K.contents writer.old) (K.contents writer.new)) }
    ensures causes { IfErr result (IsFailureOf
        (λ error. S.fails_with error ⊎ K.fails_with error ⊎ E.fails_with error)) }
{
    let mut player = Player {
        world,
        connections: Connections::new(alloc),
        moment: 0,
        hook: Some(TAKEN),
        mail: Mail::new(alloc),
    };
    let played = player.play_lines(alloc, link, source, writer, errors)?;
    writer.flush()?;
    let Player { world, .. } = player;
    Ok((played, world))
}

/// A scenario at one of its lines.
#[derive(Drop)]
pub(crate) struct Player<W: AnyWorld> {
    pub(crate) world: W,
    connections: Connections,
    pub(crate) moment: u64,
    /// The status that the program's own receiver answers; `None` where it doesn't answer.
    hook: Option<u16>,
    pub(crate) mail: Mail,
}

impl<W: AnyWorld> Player<W> {
    /// Plays the lines that are left, up to one that is no command. The text of each line is written before the next
    /// line is read.
    fn play_lines<L: Link, S: Source, K: Sink, E: Sink>(
        &mut self,
        alloc: Global,
        link: &mut L,
        mut source: S,
        writer: &mut K,
        errors: &mut E,
    ) -> Result<Played, StreamFailure>
        ensures plays { IfOk result (λ played. (trace : List Happened)
            × Course W.contents L.carries L.answers self.old (S.lines source) played trace self.new
            × Appends (K.contents writer.old) (K.contents writer.new)
            (printed trace ++ ending played (fault_count (W.contents self.new.world).state))) }
        ensures breaks { OnErr result (CourseBreaks W.contents L.carries L.answers self.old (S.lines source)
            (K.contents writer.old) (K.contents writer.new)) }
        ensures causes { IfErr result (IsFailureOf
            (λ error. S.fails_with error ⊎ K.fails_with error ⊎ E.fails_with error)) }
    {
        let mut number = 0u64;
        let mut stops = Stops::none();
        while let Some(line) = source.next_line()? {
            number += 1;
            match read_command(alloc, line.as_slice()) {
                Ok(command) => self.write_line(alloc, link, command, &mut stops, writer, errors)?,
                Err(LineFault::NotACommand) => return Ok(Played::BadLine(number)),
                Err(LineFault::OutOfMemory) => return Err(StreamFailure::OutOfMemory),
            }
        }
        let last = faults_line(alloc, self.world.faults())?;
        writer.write_whole(last.as_bytes())?;
        Ok(Played::All)
    }

    /// Plays a line and writes what is to be written of it. What instances stopped by it is told first.
    fn write_line<L: Link, K: Sink, E: Sink>(
        &mut self,
        alloc: Global,
        link: &mut L,
        command: Command,
        stops: &mut Stops,
        writer: &mut K,
        errors: &mut E,
    ) -> Result<(), StreamFailure>
        ensures plays { OnOk result ((trace : List Happened)
            × Does W.contents L.carries L.answers self.old command self.new trace
            × Appends (K.contents writer.old) (K.contents writer.new) (printed trace)) }
        ensures breaks { OnErr result (Keeps (K.contents writer.old) (K.contents writer.new)
            ⊎ ((trace : List Happened) × Does W.contents L.carries L.answers self.old command self.new trace
            × AppendsPart (K.contents writer.old) (K.contents writer.new) (printed trace))) }
        ensures causes { IfErr result (IsFailureOf (λ error. K.fails_with error ⊎ E.fails_with error)) }
    {
        let lines = self.play_line(alloc, link, command)?;
        stops.tell(alloc, &self.world, Log::plain(), errors)?;
        writer.write_whole(lines.as_bytes())?;
        Ok(())
    }

    /// Does what a line asks for, and then gives each try that went out its outcome. Gives what is to be written of all
    /// this.
    fn play_line<L: Link>(
        &mut self,
        alloc: Global,
        link: &mut L,
        command: Command,
    ) -> Result<String, AllocError>
        ensures { IfOk result (λ lines. (trace : List Happened) × (string_bytes lines ≡ printed trace)
            × Does W.contents L.carries L.answers self.old command self.new trace) }
    {
        let mut report = Report::new(alloc);
        self.obey(alloc, link, command, &mut report)?;
        let tries = mem::replace(&mut report.tries, Vec::new(alloc));
        self.settle(alloc, link, tries.as_slice(), &mut report)?;
        let Report { text, .. } = report;
        Ok(text)
    }

    /// Sends each of these tries to the receiver, in order, and gives it its outcome.
    fn settle<L: Link>(
        &mut self,
        alloc: Global,
        link: &mut L,
        tries: &[Try],
        report: &mut Report,
    ) -> Result<(), AllocError>
        ensures { OnOk result (Reports report.old report.new
            (Settles W.contents L.answers self.old tries.now self.new)) }
    {
        for awaited in tries {
            let status = link.tell(awaited.request.as_slice(), self.hook);
            let event = awaited.outcome(self.moment, status);
            self.bring(alloc, &event, report)?;
        }
        Ok(())
    }

    /// Does what a line asks for, and reports it.
    fn obey<L: Link>(
        &mut self,
        alloc: Global,
        link: &mut L,
        command: Command,
        report: &mut Report,
    ) -> Result<(), AllocError>
        ensures { OnOk result (Reports report.old report.new
            (Obeys W.contents L.carries self.old command self.new)) }
    {
        match command {
            Command::Skip => {}
            Command::At(moment) => self.moment = moment,
            Command::Hook(hook) => self.hook = hook,
            Command::Tick => self.tick(alloc, report)?,
            Command::Pump => self.pump(alloc, link, report)?,
            Command::Drop(way) => self.drop_oldest(&way),
            Command::Deliver(said) => self.deliver(alloc, name_said(&said), report)?,
            Command::Change(change) => self.bring(alloc, &event_of(&change), report)?,
            Command::LearnAll => self.learn_all(alloc, report)?,
            Command::Limits { tenant, limits } => {
                self.bring(alloc, &Event::Limits { tenant, limits }, report)?;
            }
            Command::Open {
                connection,
                instance,
            } => {
                let connection = self.connections.id(alloc, connection.as_str())?;
                self.open(alloc, connection, instance, report)?;
            }
            Command::Bytes { connection, text } => {
                let connection = self.connections.id(alloc, connection.as_str())?;
                self.give(alloc, link, connection, text.as_str().as_bytes(), report)?;
            }
            Command::Call {
                connection,
                instance,
                request,
            } => {
                let connection = self.connections.id(alloc, connection.as_str())?;
                let text = request.to_text(alloc)?;
                self.call(alloc, link, connection, instance, text.as_bytes(), report)?;
            }
        }
        Ok(())
    }

    /// Hands the world a tick at the present moment.
    fn tick(&mut self, alloc: Global, report: &mut Report) -> Result<(), AllocError>
        ensures { OnOk result (Reports report.old report.new
            (Happens W.contents self.old (Event.Tick self.old.moment) self.new)) }
    {
        let moment = self.moment;
        self.bring(alloc, &Event::Tick { moment }, report)
    }

    /// Opens a connection and gives it a whole request.
    fn call<L: Link>(
        &mut self,
        alloc: Global,
        link: &mut L,
        connection: ConnectionId,
        instance: u64,
        request: &[u8],
        report: &mut Report,
    ) -> Result<(), AllocError>
        ensures { OnOk result (Reports report.old report.new
            (Calls W.contents L.carries connection self.old (instance_of instance) request.now self.new)) }
    {
        if self.open(alloc, connection, instance, report)? {
            self.give(alloc, link, connection, request, report)?;
        }
        Ok(())
    }

    /// Opens a connection, and says whether the world took it.
    fn open(
        &mut self,
        alloc: Global,
        connection: ConnectionId,
        instance: u64,
        report: &mut Report,
    ) -> Result<bool, AllocError>
        ensures taken { IfOk result (λ taken.
            taken ≡ is_none (refusal (W.contents self.old.world).state
            (Event.Open connection (instance_of instance)))) }
        ensures happens { OnOk result (Reports report.old report.new
            (Happens W.contents self.old (Event.Open connection (instance_of instance)) self.new)) }
    {
        let event = Event::Open {
            connection,
            instance: instance_of(instance),
        };
        self.happen(alloc, &event, report)
    }

    /// Gives bytes to a connection, piece by piece as they come over the link, until it is answered, or a piece is
    /// refused or lost.
    fn give<L: Link>(
        &mut self,
        alloc: Global,
        link: &mut L,
        connection: ConnectionId,
        bytes: &[u8],
        report: &mut Report,
    ) -> Result<(), AllocError>
        ensures { OnOk result (Reports report.old report.new
            (Gives W.contents L.carries connection self.old bytes.now self.new)) }
    {
        for piece in bytes.chunks(PIECE) {
            if !link.carry(piece) {
                return Ok(());
            }
            let event = Event::Bytes {
                connection,
                moment: self.moment,
                piece: Octets::read(alloc, piece)?,
            };
            let is_taken = self.happen(alloc, &event, report)?;
            if !self.goes_on(is_taken, connection) {
                return Ok(());
            }
        }
        Ok(())
    }

    /// Whether the bytes of a line go on after an event: it was taken, and didn't answer the line's connection.
    fn goes_on(&self, is_taken: bool, connection: ConnectionId) -> bool
        ensures { result ≡ (is_taken
            && not (is_answered connection (put_out (W.contents self.now.world).state))) }
    {
        is_taken && !is_answered(self.world.outputs(), connection)
    }

    /// Hands an event to the world, whether it is taken or not.
    pub(crate) fn bring(
        &mut self,
        alloc: Global,
        event: &Event,
        report: &mut Report,
    ) -> Result<(), AllocError>
        ensures { OnOk result (Reports report.old report.new (Happens W.contents self.old event.now self.new)) }
    {
        self.happen(alloc, event, report)?;
        Ok(())
    }

    /// Hands an event to the world and reports its outputs, and then its refusal; the messages that it sent wait. Says
    /// whether it was taken.
    pub(crate) fn happen(
        &mut self,
        alloc: Global,
        event: &Event,
        report: &mut Report,
    ) -> Result<bool, AllocError>
        ensures taken { IfOk result (λ taken.
            taken ≡ is_none (refusal (W.contents self.old.world).state event.now)) }
        ensures happens { OnOk result (Reports report.old report.new (Happens W.contents self.old event.now self.new)) }
    {
        self.world.clear_outputs();
        let taken = self.world.step(alloc, event);
        self.push_outputs(alloc, report)?;
        self.mail.post(self.world.outputs())?;
        match taken {
            Ok(()) => Ok(true),
            Err(refused) => {
                report.push_refusal(refused)?;
                Ok(false)
            }
        }
    }

    /// Reports what the world put out at the last event.
    fn push_outputs(&self, alloc: Global, report: &mut Report) -> Result<(), AllocError>
        ensures text { OnOk result (string_bytes report.new.text ≡ string_bytes report.old.text ++
            flat_map (output_line self.now.connections) (put_out (W.contents self.now.world).state)) }
        ensures tries { OnOk result (report.new.tries.items ≡ report.old.tries.items ++
            tries_in (put_out (W.contents self.now.world).state)) }
    {
        for output in self.world.outputs() {
            self.push_output(alloc, output, report)?;
        }
        Ok(())
    }

    /// Reports an output. A reply on a connection that no line named has no line.
    fn push_output(
        &self,
        alloc: Global,
        output: &Output,
        report: &mut Report,
    ) -> Result<(), AllocError>
        ensures text { OnOk result (string_bytes report.new.text ≡ string_bytes report.old.text ++
            output_line self.now.connections output.now) }
        ensures tries { OnOk result (report.new.tries.items ≡ report.old.tries.items ++ try_of output.now) }
    {
        match output {
            Output::Reply { connection, bytes } => match self.connections.name(*connection) {
                Some(name) => report.push_reply(alloc, name, bytes.as_slice()),
                None => Ok(()),
            },
            Output::Notice {
                attempt,
                tries,
                url,
                bytes,
            } => report.push_notice(alloc, attempt, *tries, url.as_str(), bytes.as_slice()),
            Output::Send(_) => Ok(()),
        }
    }
}
