//! The command over a source, a sink and a disk.

ghost use Rattle.std.specs.Prelude.{◌≡◌, [], false, None};
ghost use Rattle.base_names.specs.Outside.{Rose};
ghost use Rattle.session.specs.Conversing.{Converses};
ghost use Rattle.hub_core.specs.Mounting.{Mounted};
ghost use Rattle.hub_core.specs.Standing.{IsStanding};
ghost use Rattle.session_command.specs.Held.{SessionHeld, SessionSays};
ghost use Rattle.session_command.specs.OnDisk as on_disk;
ghost use Rattle.session_command.specs.OnDisk.{seat_of};

use base_io::{LineReader, Sink, Source};
use base_names::{Owner, Role, Seat};
use desk::OwnDesk;
use disk_model::Disk;
use hub_core::{Hub, HubFault, Limits, Setup};
use hub_words::Desk;
use session::{End, talk};
use std::alloc::Global;

/// How a session over a file ended.
#[derive(Clone, Copy, Debug, PartialEq, Eq)]
pub enum SessionEnd {
    /// It was held, and ended so.
    Ended(End),
    /// The file wasn't opened.
    Unopened(HubFault),
}

/// One node for two jobs, and the usual limits.
fn session_setup() -> Setup
    ensures { result ≡ on_disk.session_setup }
{
    Setup {
        nodes: 1,
        limit: 2,
        hard: 0,
        limits: Limits::usual(),
    }
}

/// Opens the file on the disk, and holds a session of the owner over it. What goes wrong while the session is held is told to its client.
pub fn hold_session<S: Source, K: Sink, D: Disk>(
    alloc: Global,
    owner: Owner,
    role: Role,
    source: &mut S,
    sink: &mut K,
    disk: &mut D,
) -> SessionEnd
    ensures same_source { S.name source.new ≡ S.name source.old }
    ensures same_sink { K.name sink.new ≡ K.name sink.old }
    ensures disk_fault { result ≡ SessionEnd.Unopened HubFault.DiskFailed → Rose (D.faults disk.old) (D.faults disk.new) }
    ensures held { SessionHeld result owner role (record { seen = D.seen disk.old; before = D.faults disk.old; after = D.faults disk.new }) (S.left source.old) (S.left source.new) (K.contents sink.old) (K.contents sink.new) }
    ensures read_fault { result ≡ SessionEnd.Ended End.ReadFault → Rose (S.faults source.old) (S.faults source.new) }
    ensures write_fault { result ≡ SessionEnd.Ended End.WriteFault → Rose (K.faults sink.old) (K.faults sink.new) }
{
    match Hub::mount(alloc, &mut *disk, session_setup()) {
        Err(refused) => {
            let fault = refused.fault;
            let _disk = refused.into_disk();
            SessionEnd::Unopened(fault)
        }
        Ok(hub) => {
            let (end, _disk) = hold_over(alloc, owner, role, hub, source, sink);
            SessionEnd::Ended(end)
        }
    }
}

/// Holds a session of the owner over an open hub, and gives the disk back.
fn hold_over<S: Source, K: Sink, D: Disk>(
    alloc: Global,
    owner: Owner,
    role: Role,
    hub: Hub<D>,
    source: &mut S,
    sink: &mut K,
) -> (End, D)
    requires { IsStanding D.moment D.left D.faults hub }
    ensures same_source { S.name source.new ≡ S.name source.old }
    ensures same_sink { K.name sink.new ≡ K.name sink.old }
    ensures same_disk { D.name result.1 ≡ D.name hub.journal.disk }
    ensures held { (disk : D) → Mounted D.name D.seen D.moment D.left D.calls D.makes D.faults disk on_disk.session_setup hub
        → SessionSays result.0 owner role (record { seen = D.seen disk; before = D.faults disk; after = D.faults result.1 }) (S.left source.old) (S.left source.new) (K.contents sink.old) (K.contents sink.new) }
    ensures read_fault { result.0 ≡ End.ReadFault → Rose (S.faults source.old) (S.faults source.new) }
    ensures write_fault { result.0 ≡ End.WriteFault → Rose (K.faults sink.old) (K.faults sink.new) }
{
    let mut desk = OwnDesk::new(hub);
    let end = talk_over(alloc, owner, role, &mut desk, source, sink);
    (end, desk.into_hub().into_disk())
}

/// Holds a session of the owner over a desk.
fn talk_over<S: Source, K: Sink, E: Desk>(
    alloc: Global,
    owner: Owner,
    role: Role,
    desk: &mut E,
    source: &mut S,
    sink: &mut K,
) -> End
    ensures same_desk { E.name desk.new ≡ E.name desk.old }
    ensures same_source { S.name source.new ≡ S.name source.old }
    ensures same_sink { K.name sink.new ≡ K.name sink.old }
    ensures converses { Converses result (seat_of owner role) (record { bytes = []; ended = false; given = 0; waiting = None }) (E.mine desk.old) (E.mine desk.new) (E.fulls desk.old) (E.fulls desk.new) (S.left source.old) (S.left source.new) (K.contents sink.old) (K.contents sink.new) }
    ensures read_fault { result ≡ End.ReadFault → Rose (S.faults source.old) (S.faults source.new) }
    ensures write_fault { result ≡ End.WriteFault → Rose (K.faults sink.old) (K.faults sink.new) }
{
    let seat = Seat {
        number: 1,
        owner,
        role,
    };
    let mut reader = LineReader::new(alloc);
    talk(alloc, seat, desk, &mut reader, source, sink)
}
