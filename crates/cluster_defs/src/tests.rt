//! Each call once with ample memory.

use crate::{Ask, Entry, Reply};
use base_names::{BatchId, NoMemory, Owner, Refusal, Role, Seat, TryCopy};
use model_data::{BatchBody, Model, Params};
use std::alloc::Global;
use std::test::Fail;

fn is_copied<T: TryCopy + PartialEq>(alloc: Global, value: &T) -> Result<bool, NoMemory> {
    Ok(value.try_copy(alloc)? == *value)
}

#[test]
fn what_is_said_is_copied(rt: HostRuntime) -> Result<(), Fail> {
    let alloc = rt.alloc();
    let owner = Owner::read(b"ada").ok_or("an owner")?;
    let id = BatchId { owner, number: 1 };
    let seat = Seat {
        number: 1,
        owner,
        role: Role::Standard,
    };
    let create = Ask::Create(BatchBody {
        model: Model::empty(alloc),
        params: Params::usual(),
    });
    assert!(rt; is_copied(alloc, &create)?);
    assert!(rt; create.copy(alloc)? != Ask::Status(id));
    for reply in [
        Reply::Made(id),
        Reply::Status(id, 2),
        Reply::Refused(Refusal::BATCH),
    ] {
        assert!(rt; is_copied(alloc, &reply)?);
        let entry = Entry {
            seat,
            ask: Ask::Status(id),
            reply,
        };
        assert!(rt; is_copied(alloc, &entry)?);
    }
    Ok(())
}
