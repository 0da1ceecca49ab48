//! A desk through a reference.

ghost use Rattle.std.specs.Prelude.{ℕ};

use crate::Desk;
use base_names::{BatchId, Owner, Refusal, Role, Seat};
use cluster_defs::{Ask, Entry, Reply};
use std::alloc::Global;
use std::test::Fail;

/// A desk that knows no batch and takes none.
#[derive(Drop)]
struct Stub {
    entries: Vec<Entry>,
}

impl Desk for Stub {
    ghost use Rattle.std.specs.Prelude.{⊤};
    ghost use Rattle.cluster_defs.specs.Journal.{none_yet};

    ghost name = { λ stub. record { borrow = 0; disk = 0; setup = record { nodes = 0; limit = 0; hard = 0; limits = record { commands = 0; bytes = 0; journal = 0 } }; start = none_yet; faults = 0 } };

    ghost mine = { λ stub. stub.entries.items };

    ghost fulls = { λ stub. 0 };

    ghost makes = { λ old seat ask reply new. ⊤ };

    fn ask(&mut self, _alloc: Global, seat: &Seat, ask: Ask) -> Reply {
        let refusal = match &ask {
            Ask::Create(_) => Refusal::JOURNALFULL(1, 0),
            Ask::Status(_) => Refusal::BATCH,
        };
        let entry = Entry {
            seat: *seat,
            ask,
            reply: Reply::Refused(refusal),
        };
        if self.entries.push(entry).is_err() {
            return Reply::Refused(Refusal::MEMORY);
        }
        Reply::Refused(refusal)
    }
}

fn status_at<D: Desk>(desk: &mut D, alloc: Global, seat: &Seat, id: BatchId) -> Reply {
    desk.ask(alloc, seat, Ask::Status(id))
}

#[test]
fn a_desk_is_asked_through_a_reference(rt: HostRuntime) -> Result<(), Fail> {
    let alloc = rt.alloc();
    let owner = Owner::read(b"ada").ok_or("an owner")?;
    let seat = Seat {
        number: 1,
        owner,
        role: Role::Standard,
    };
    let id = BatchId { owner, number: 1 };
    let mut desk = Stub {
        entries: Vec::new(alloc),
    };
    let refused = Reply::Refused(Refusal::BATCH);
    assert!(rt; status_at(&mut &mut desk, alloc, &seat, id) == refused);
    assert_eq!(rt; desk.entries.len(), 1);
    assert!(rt; matches!(desk.entries[0].ask, Ask::Status(_)));
    Ok(())
}
