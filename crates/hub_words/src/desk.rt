//! The hub as a session has it before it.

ghost use Rattle.std.specs.Prelude.{◌≡◌, ℕ, List, ◌++◌};
ghost use Rattle.base_names.specs.declared.seat.Seat.{Seat as seat_type};
ghost use Rattle.cluster_defs.specs.declared.ask.Ask.{Ask as ask_type};
ghost use Rattle.cluster_defs.specs.declared.entry.Entry.{Entry};
ghost use Rattle.cluster_defs.specs.declared.reply.Reply.{Reply as reply_type};

use base_names::Seat;
use cluster_defs::{Ask, Reply};
use std::alloc::Global;

/// What answers the asks of a session.
pub trait Desk {
    ghost use Rattle.cluster_defs.specs.Asking.{Answers, MayBeAsked, entries_of, fulls_after};
    ghost use Rattle.hub_words.specs.Object.{Object};

    // Which object this is, and where its history begins.
    ghost name: { Self → Object };

    // The asks that were answered here, in their order.
    ghost mine: { Self → List Entry };

    // How often an ask was answered OWNERFULL COMMANDS. It stays at 2^64 - 1 once there.
    ghost fulls: { Self → ℕ };

    // What an ask that is answered so makes of the desk, as far as that is told.
    ghost makes: { Self → seat_type → ask_type → reply_type → Self → Type 0 };

    /// Answers what is asked for this seat. The answer is a refusal, or of the ask's kind.
    fn ask(&mut self, alloc: Global, seat: &Seat, ask: Ask) -> Reply
        requires { MayBeAsked ask }
        ensures same { name self.new ≡ name self.old }
        ensures answers { Answers result ask }
        ensures entries { mine self.new ≡ mine self.old ++ entries_of seat.now ask result }
        ensures full { fulls self.new ≡ fulls_after (fulls self.old) result }
        ensures made { makes self.old seat.now ask result self.new };
}

impl<D: Desk> Desk for &mut D {
    ghost name = { λ d. record (D.name d.now) { borrow = d.ghost_name } };

    ghost mine = { λ d. D.mine d.now };

    ghost fulls = { λ d. D.fulls d.now };

    ghost makes = { λ old seat ask reply new. D.makes old.now seat ask reply new.now };

    fn ask(&mut self, alloc: Global, seat: &Seat, ask: Ask) -> Reply {
        D::ask(&mut **self, alloc, seat, ask)
    }
}
